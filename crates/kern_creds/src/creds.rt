//! The credentials of a process, and the credentials that the first process starts with.

ghost use Rattle.std.specs.Prelude.{◌≡◌, IfOk};
ghost use Rattle.kern_creds.specs.Start.{start};
ghost use Rattle.kern_creds.specs.Enter.{entered};
ghost use Rattle.kern_creds.specs.RootChange.{with_uids};

use crate::groups::Groups;
use crate::ids::Ids;
use cap_sets::CapSet;
use std::alloc::{AllocError, Global};

/// The credentials of a process, credentials(7) and capabilities(7), and the marks that it keeps or loses when it executes a
/// program.
#[derive(Drop)]
pub struct Creds {
    pub(crate) uids: Ids,
    pub(crate) gids: Ids,
    pub(crate) groups: Groups,
    pub(crate) permitted: CapSet,
    pub(crate) effective: CapSet,
    pub(crate) inheritable: CapSet,
    pub(crate) bounding: CapSet,
    pub(crate) ambient: CapSet,
    pub(crate) no_new_privs: bool,
    pub(crate) mdwe: bool,
    pub(crate) ring: bool,
    pub(crate) keepcaps: bool,
}

impl Creds {
    /// Makes the credentials of the first process: all ids are 0, there are no groups, the permitted, effective and
    /// bounding sets are full, and there is no ring.
    pub fn start(alloc: Global) -> Creds
        ensures as_at_the_start { result ≡ start }
    {
        Creds {
            uids: Ids::all_of(0),
            gids: Ids::all_of(0),
            groups: Groups::new(alloc),
            permitted: CapSet::full(),
            effective: CapSet::full(),
            inheritable: CapSet::empty(),
            bounding: CapSet::full(),
            ambient: CapSet::empty(),
            no_new_privs: false,
            mdwe: false,
            ring: false,
            keepcaps: false,
        }
    }

    /// Copies the credentials.
    pub fn copy(&self) -> Result<Creds, AllocError>
        ensures same { IfOk result (λ creds. creds ≡ self.now) }
    {
        Ok(Creds {
            uids: self.uids,
            gids: self.gids,
            groups: self.groups.copy()?,
            permitted: self.permitted,
            effective: self.effective,
            inheritable: self.inheritable,
            bounding: self.bounding,
            ambient: self.ambient,
            no_new_privs: self.no_new_privs,
            mdwe: self.mdwe,
            ring: self.ring,
            keepcaps: self.keepcaps,
        })
    }

    /// Returns the real, the effective and the saved uid.
    pub fn uids(&self) -> Ids
        ensures real { result.real ≡ self.now.uids.real }
        ensures effective { result.effective ≡ self.now.uids.effective }
        ensures saved { result.saved ≡ self.now.uids.saved }
    {
        self.uids
    }

    /// Returns the real, the effective and the saved gid.
    pub fn gids(&self) -> Ids
        ensures real { result.real ≡ self.now.gids.real }
        ensures effective { result.effective ≡ self.now.gids.effective }
        ensures saved { result.saved ≡ self.now.gids.saved }
    {
        self.gids
    }

    /// Returns the supplementary groups.
    pub fn groups(&self) -> &[u32]
        ensures as_held { result.now ≡ self.now.groups }
    {
        self.groups.ids()
    }

    /// Returns the permitted set: the capabilities that the process can make effective.
    pub fn permitted(&self) -> CapSet
        ensures as_held { result ≡ self.now.permitted }
    {
        self.permitted
    }

    /// Returns the effective set: the capabilities that the kernel checks.
    pub fn effective(&self) -> CapSet
        ensures as_held { result ≡ self.now.effective }
    {
        self.effective
    }

    /// Returns the inheritable set.
    pub fn inheritable(&self) -> CapSet
        ensures as_held { result ≡ self.now.inheritable }
    {
        self.inheritable
    }

    /// Returns the bounding set, which limits the capabilities that execve gives.
    pub fn bounding(&self) -> CapSet
        ensures as_held { result ≡ self.now.bounding }
    {
        self.bounding
    }

    /// Returns the ambient set, which a process keeps when it executes a file that is not privileged.
    pub fn ambient(&self) -> CapSet
        ensures as_held { result ≡ self.now.ambient }
    {
        self.ambient
    }

    /// Whether execve can give no new privileges, PR_GET_NO_NEW_PRIVS of prctl(2).
    pub fn no_new_privs(&self) -> bool
        ensures as_held { result ≡ self.now.no_new_privs }
    {
        self.no_new_privs
    }

    /// Whether the process is refused memory that it can both write and execute, PR_GET_MDWE of prctl(2).
    pub fn mdwe(&self) -> bool
        ensures as_held { result ≡ self.now.mdwe }
    {
        self.mdwe
    }

    /// Whether the process has a ring, to which io_uring_enter(2) submits requests.
    pub fn ring(&self) -> bool
        ensures as_held { result ≡ self.now.ring }
    {
        self.ring
    }

    /// Whether the process keeps its permitted set when none of its uids is 0 any more, PR_GET_KEEPCAPS of prctl(2).
    pub fn keepcaps(&self) -> bool
        ensures as_held { result ≡ self.now.keepcaps }
    {
        self.keepcaps
    }

    /// Moves the process into a user namespace of its own, user_namespaces(7). The permitted, effective and bounding sets
    /// become full, the inheritable and ambient sets empty, and keepcaps is cleared. The ids, the groups, no_new_privs,
    /// mdwe and a ring stay.
    pub fn enter(&mut self)
        ensures entered { self.new ≡ entered self.old }
    {
        self.permitted = CapSet::full();
        self.effective = CapSet::full();
        self.bounding = CapSet::full();
        self.inheritable = CapSet::empty();
        self.ambient = CapSet::empty();
        self.keepcaps = false;
    }

    // Takes these uids, and changes the sets as capabilities(7) says for a change of uids.
    pub(crate) fn take_uids(&mut self, uids: Ids)
        ensures { self.new ≡ with_uids self.old uids }
    {
        let old = self.uids;
        self.uids = uids;
        if old.has_root() && !uids.has_root() {
            self.ambient = CapSet::empty();
            if !self.keepcaps {
                self.permitted = CapSet::empty();
                self.effective = CapSet::empty();
            }
        }
        if old.effective == 0 {
            if uids.effective != 0 {
                self.effective = CapSet::empty();
            }
        } else if uids.effective == 0 {
            self.effective = self.permitted;
        }
    }
}
