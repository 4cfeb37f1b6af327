//! Laws of credentials, for every call. Each law is the contract of a function that does nothing.
//!
//! The laws use the definitions of the calls' contracts. They hold for every file that a process executes.

ghost use Rattle.std.specs.Prelude.{◌≡◌, ◌≢◌, ℕ, ◌&&◌, Bool, true, false, Ok, Some};
ghost use Rattle.cap_sets.specs.Sets.{has, union, cut, none, IsWithin};
ghost use Rattle.kern_creds.specs.declared.creds.Creds.{Creds};
ghost use Rattle.kern_creds.specs.declared.file.FileCreds.{FileCreds};
ghost use Rattle.cap_sets.specs.linux_numbers.Capabilities.{cap_setgid, cap_setuid};
ghost use Rattle.kern_creds.specs.Start.{start};
ghost use Rattle.kern_creds.specs.Exec.{after_exec, exec_in, honours, is_privileged, runs_as_root};
ghost use Rattle.kern_creds.specs.Enter.{entered};
ghost use Rattle.kern_creds.specs.Calls.{Call};
ghost use Rattle.kern_creds.specs.Sound.{IsSound};
ghost use Rattle.kern_creds.specs.Guarded.{AreAmong, is_set_user, is_set_group, is_set_up};
ghost use Rattle.kern_creds.specs.Steps.{Leads, Reaches, may_gain};

/// Each effective capability is permitted, and each ambient capability is permitted and inheritable. This holds at the start
/// and after each call.
pub fn sets_stay_sound()
    ensures at_the_start { IsSound start }
    ensures kept_by_each_call { (creds now : Creds) (call : Call) → IsSound creds → Leads creds call now → IsSound now }
    ensures held_by_all_that_starts { (now : Creds) → Reaches start now → IsSound now }
{}

/// No call extends the bounding set.
pub fn bounding_never_grows()
    ensures by_a_call { (creds now : Creds) (call : Call) → Leads creds call now → IsWithin now.bounding creds.bounding }
    ensures by_any_calls { (creds now : Creds) → Reaches creds now → IsWithin now.bounding creds.bounding }
{}

/// An inheritable capability was inheritable before, or was in the bounding set.
pub fn inheritable_stays_bounded()
    ensures by_a_call { (creds now : Creds) (call : Call) → Leads creds call now
        → IsWithin now.inheritable (union creds.inheritable creds.bounding) }
    ensures by_any_calls { (creds now : Creds) → Reaches creds now
        → IsWithin now.inheritable (union creds.inheritable creds.bounding) }
{}

/// No call clears no_new_privs. While it is set, neither execve nor any other call extends the permitted set.
pub fn no_new_privs_holds()
    ensures stays_on { (creds now : Creds) → Reaches creds now → creds.no_new_privs ≡ true → now.no_new_privs ≡ true }
    ensures execve_gives_nothing { (creds now : Creds) (file : FileCreds) (nosuid : Bool) → creds.no_new_privs ≡ true
        → after_exec creds file nosuid ≡ Ok now → IsWithin now.permitted creds.permitted }
    ensures permitted_never_grows { (creds now : Creds) → Reaches creds now → creds.no_new_privs ≡ true
        → IsWithin now.permitted creds.permitted }
{}

/// No call clears mdwe: a process that is refused memory which it can both write and execute is refused it for good.
pub fn mdwe_holds()
    ensures stays_on { (creds now : Creds) → Reaches creds now → creds.mdwe ≡ true → now.mdwe ≡ true }
{}

/// Execve closes a ring, in whatever user namespace. No other call than io_uring_setup(2) gives a process a ring.
pub fn rings()
    ensures closed_by_execve { (newer : Bool) (creds now : Creds) (file : FileCreds) (nosuid : Bool)
        → exec_in newer creds file nosuid ≡ Ok now → now.ring ≡ false }
    ensures set_up_or_had { (creds now : Creds) (call : Call) → is_set_up call ≡ false → Leads creds call now → now.ring ≡ true
        → creds.ring ≡ true }
{}

/// Only execve without no_new_privs extends the permitted set. The result is within the inheritable and the bounding set.
pub fn permitted_grows_by_execve()
    ensures by_nothing_else { (creds now : Creds) (call : Call) → Leads creds call now → may_gain creds call ≡ false
        → IsWithin now.permitted creds.permitted }
    ensures within_bounds { (creds now : Creds) (file : FileCreds) (nosuid : Bool) → IsSound creds
        → after_exec creds file nosuid ≡ Ok now → IsWithin now.permitted (union creds.inheritable creds.bounding) }
{}

/// Without CAP_SETUID a process keeps to its own uids; without CAP_SETGID it keeps to its own gids and its groups. This holds
/// for each call. Exception: executing a set-id file gives it the file's owner or group.
pub fn ids_are_guarded()
    ensures own_uids { (creds now : Creds) (call : Call) → has creds.effective cap_setuid ≡ false → is_set_user creds call ≡ false
        → Leads creds call now → AreAmong now.uids creds.uids }
    ensures own_gids { (creds now : Creds) (call : Call) → has creds.effective cap_setgid ≡ false → is_set_group creds call ≡ false
        → Leads creds call now → AreAmong now.gids creds.gids }
    ensures own_groups { (creds now : Creds) (call : Call) → has creds.effective cap_setgid ≡ false
        → Leads creds call now → now.groups ≡ creds.groups }
{}

/// Each execve clears keepcaps and copies the effective ids to the saved ones. It keeps the real ids, the groups, the
/// inheritable set, the bounding set, no_new_privs and mdwe.
pub fn execve_leaves_by_rule()
    ensures keepcaps_is_cleared { (creds now : Creds) (file : FileCreds) (nosuid : Bool) → after_exec creds file nosuid ≡ Ok now
        → now.keepcaps ≡ false }
    ensures saved_uid_is_the_effective { (creds now : Creds) (file : FileCreds) (nosuid : Bool) → after_exec creds file nosuid ≡ Ok now
        → now.uids.saved ≡ now.uids.effective }
    ensures saved_gid_is_the_effective { (creds now : Creds) (file : FileCreds) (nosuid : Bool) → after_exec creds file nosuid ≡ Ok now
        → now.gids.saved ≡ now.gids.effective }
    ensures owner_becomes_effective { (creds now : Creds) (file : FileCreds) (nosuid : Bool) (owner : ℕ) → honours creds nosuid ≡ true
        → file.setuid ≡ Some owner → after_exec creds file nosuid ≡ Ok now → now.uids.effective ≡ owner }
    ensures group_becomes_effective { (creds now : Creds) (file : FileCreds) (nosuid : Bool) (group : ℕ) → honours creds nosuid ≡ true
        → file.setgid ≡ Some group → after_exec creds file nosuid ≡ Ok now → now.gids.effective ≡ group }
    ensures the_rest_stays { (creds now : Creds) (file : FileCreds) (nosuid : Bool) → after_exec creds file nosuid ≡ Ok now
        → (now.uids.real ≡ creds.uids.real) × (now.gids.real ≡ creds.gids.real) × (now.groups ≡ creds.groups)
        × (now.inheritable ≡ creds.inheritable) × (now.bounding ≡ creds.bounding) × (now.no_new_privs ≡ creds.no_new_privs)
        × (now.mdwe ≡ creds.mdwe) }
{}

/// If the real or the effective uid is 0 after execve, the process gets the inheritable and the bounding set as its permitted
/// set. With no_new_privs, only capabilities that were permitted before are left of it.
pub fn execve_gives_root()
    ensures all_without_no_new_privs { (creds now : Creds) (file : FileCreds) (nosuid : Bool) → creds.no_new_privs ≡ false
        → after_exec creds file nosuid ≡ Ok now → runs_as_root now.uids ≡ true
        → now.permitted ≡ union creds.inheritable creds.bounding }
    ensures permitted_ones_with_it { (creds now : Creds) (file : FileCreds) (nosuid : Bool) → creds.no_new_privs ≡ true
        → after_exec creds file nosuid ≡ Ok now → runs_as_root now.uids ≡ true
        → now.permitted ≡ cut (union creds.inheritable creds.bounding) creds.permitted }
    ensures effective_with_the_effective_uid { (creds now : Creds) (file : FileCreds) (nosuid : Bool)
        → after_exec creds file nosuid ≡ Ok now → now.uids.effective ≡ 0 → now.effective ≡ now.permitted }
{}

/// If neither the real nor the effective uid is 0 after execve, the permitted set has the ambient set and, if the file's marks
/// count, the file's capabilities within the bounding set. A privileged file empties the ambient set if its marks count.
///
/// With no_new_privs, only capabilities that were permitted before are left. If the file's effective bit is on and counts,
/// every permitted capability is effective; otherwise only the ambient ones are.
pub fn execve_gives_others()
    ensures by_the_file { (creds now : Creds) (file : FileCreds) (nosuid : Bool) → honours creds nosuid ≡ true
        → after_exec creds file nosuid ≡ Ok now → runs_as_root now.uids ≡ false
        → now.permitted ≡ union (cut file.caps creds.bounding) now.ambient }
    ensures by_ambient_alone { (creds now : Creds) (file : FileCreds) (nosuid : Bool) → nosuid ≡ true → creds.no_new_privs ≡ false
        → after_exec creds file nosuid ≡ Ok now → runs_as_root now.uids ≡ false → now.permitted ≡ now.ambient }
    ensures by_what_was_permitted { (creds now : Creds) (file : FileCreds) (nosuid : Bool) → creds.no_new_privs ≡ true
        → after_exec creds file nosuid ≡ Ok now → runs_as_root now.uids ≡ false → now.permitted ≡ cut now.ambient creds.permitted }
    ensures effective_by_the_bit { (creds now : Creds) (file : FileCreds) (nosuid : Bool) → honours creds nosuid ≡ true
        → file.effective ≡ true → after_exec creds file nosuid ≡ Ok now → now.effective ≡ now.permitted }
    ensures effective_without_it { (creds now : Creds) (file : FileCreds) (nosuid : Bool) → (honours creds nosuid && file.effective) ≡ false
        → after_exec creds file nosuid ≡ Ok now → now.uids.effective ≢ 0 → now.effective ≡ now.ambient }
    ensures ambient_is_emptied { (creds now : Creds) (file : FileCreds) (nosuid : Bool) → honours creds nosuid ≡ true
        → is_privileged file ≡ true → after_exec creds file nosuid ≡ Ok now → now.ambient ≡ none }
    ensures ambient_stays { (creds now : Creds) (file : FileCreds) (nosuid : Bool) → honours creds nosuid ≡ false
        → after_exec creds file nosuid ≡ Ok now → now.ambient ≡ creds.ambient }
{}

/// A process that enters a user namespace of its own gets every capability there, and keeps its ids, its groups,
/// no_new_privs, mdwe and a ring. In a newer user namespace, execve ignores set-id bits and gives root no more than other users.
pub fn user_namespaces()
    ensures entering_is_sound { (creds : Creds) → IsSound (entered creds) }
    ensures entering_keeps { (creds : Creds) → ((entered creds).uids ≡ creds.uids) × ((entered creds).gids ≡ creds.gids)
        × ((entered creds).groups ≡ creds.groups) × ((entered creds).no_new_privs ≡ creds.no_new_privs)
        × ((entered creds).mdwe ≡ creds.mdwe) × ((entered creds).ring ≡ creds.ring) }
    ensures execve_stays_sound { (creds now : Creds) (file : FileCreds) (nosuid : Bool) → IsSound creds
        → exec_in true creds file nosuid ≡ Ok now → IsSound now }
    ensures execve_keeps_ids { (creds now : Creds) (file : FileCreds) (nosuid : Bool) → exec_in true creds file nosuid ≡ Ok now
        → (now.uids.effective ≡ creds.uids.effective) × (now.uids.saved ≡ creds.uids.effective)
        × (now.gids.effective ≡ creds.gids.effective) × (now.gids.saved ≡ creds.gids.effective) × (now.groups ≡ creds.groups) }
    ensures root_is_as_others { (creds now : Creds) (file : FileCreds) (nosuid : Bool) → honours creds nosuid ≡ true
        → exec_in true creds file nosuid ≡ Ok now → now.permitted ≡ union (cut file.caps creds.bounding) now.ambient }
{}
