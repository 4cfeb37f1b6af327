//! Laws of the changes that mount(2) and umount2(2) make to a mount table.

ghost use Rattle.std.specs.Prelude.{◌≡◌, ℕ, Bool, true, false, ◌∷◌, [], ◌++◌, map, option_map, if◌then◌else◌, Option, Some, Ok, Err};
ghost use Rattle.abs_path.specs.Paths.{Path};
ghost use Rattle.abs_path.specs.Prefix.{is_prefix};
ghost use Rattle.abs_path.specs.ByteOrder.{AreAscending};
ghost use Rattle.kern_mounts.specs.declared.step.Flags.{Flags};
ghost use Rattle.kern_mounts.specs.declared.step.Mount.{Mount};
ghost use Rattle.kern_mounts.specs.declared.step.MountStep.{MountStep};
ghost use Rattle.linux_numbers.specs.Errnos.{einval};
ghost use Rattle.kern_mounts.specs.Table.{StartsAtRoot};
ghost use Rattle.kern_mounts.specs.Entry.{entry_of};
ghost use Rattle.kern_mounts.specs.Finds.{host_place, finds, nothing};
ghost use Rattle.kern_mounts.specs.Split.{Table, SplitOf, is_at};
ghost use Rattle.kern_mounts.specs.Mounts.{Mounts, steps_of};
ghost use Rattle.kern_mounts.specs.MountAt.{mount_at};
ghost use Rattle.kern_mounts.specs.Umount.{after_umount};
ghost use Rattle.kern_mounts.specs.Remount.{with_flags, after_remount};
ghost use Rattle.kern_mounts.specs.Bind.{bound_entry, after_bind, is_long, can_bind};
ghost use Rattle.kern_mounts.specs.Unmounts.{Unmounts, IsTrimmed, Removes, IsOrdered, Has, Uncovers};

/// A bind covers what the mounts showed at the target and below, and changes nothing elsewhere. Without `recursive` only the
/// new entry is visible there.
///
/// A recursive bind shows at the target what the mounts showed at the source, with the same flags: the same paths of the host.
/// If the source is found, each path at or below the target finds what the same path at or below the source finds. A source
/// that is found can be bound, provided that no row of the site has too long a path.
pub fn bound_tables()
    ensures elsewhere { (mounts next : Mounts) (source target path : Path) (recursive : Bool)
        → after_bind mounts source target recursive ≡ Ok next → is_prefix target path ≡ false
        → entry_of (steps_of next) path ≡ entry_of (steps_of mounts) path }
    ensures one_entry_unless_recursive { (mounts next : Mounts) (source target path : Path) (step : MountStep)
        → after_bind mounts source target false ≡ Ok next → entry_of (steps_of mounts) source ≡ Some step
        → is_prefix target path ≡ true → entry_of (steps_of next) path ≡ Some (bound_entry source target step) }
    ensures same_places_on_the_host { (mounts next : Mounts) (source target rest : Path)
        → after_bind mounts source target true ≡ Ok next
        → host_place (steps_of next) (target ++ rest) ≡ host_place (steps_of mounts) (source ++ rest) }
    ensures same_flags { (mounts next : Mounts) (source target rest : Path)
        → after_bind mounts source target true ≡ Ok next
        → option_map (λ step. step.flags) (entry_of (steps_of next) (target ++ rest))
        ≡ option_map (λ step. step.flags) (entry_of (steps_of mounts) (source ++ rest)) }
    ensures same_is_found { (rows : Path → Option ℕ) (mounts next : Mounts) (source target rest : Path)
        → after_bind mounts source target true ≡ Ok next
        → ((errno : ℕ) → finds rows (steps_of mounts) source ≡ nothing errno → ⊥)
        → finds rows (steps_of next) (target ++ rest) ≡ finds rows (steps_of mounts) (source ++ rest) }
    ensures what_is_found_can_be_bound { (rows : Path → Option ℕ) (table : Table) (source : Path)
        → ((path : Path) (row : ℕ) → rows path ≡ Some row → is_long path ≡ false)
        → ((errno : ℕ) → finds rows table source ≡ nothing errno → ⊥) → can_bind table source ≡ true }
{}

/// A remount changes the flags of the mount at this place only. Each path belongs to the same entry as before, with the new
/// flags if it belongs to that mount.
pub fn remounted_tables()
    ensures flags_of_one_mount { (mounts next : Mounts) (place : Path) (flags : Flags)
        → after_remount mounts place flags ≡ Ok next
        → (earlier later : Mounts) × (mount : Mount) × (mounts ≡ earlier ++ mount ∷ later)
        × (next ≡ earlier ++ with_flags mount flags ∷ later) × (mount.step.place ≡ place)
        × (entry_of (steps_of mounts) place ≡ Some mount.step) }
    ensures entry_of_each_path { (mounts next : Mounts) (place path : Path) (flags : Flags)
        → after_remount mounts place flags ≡ Ok next
        → entry_of (steps_of next) path
        ≡ option_map (λ step. if is_at place step then record step { flags = flags } else step)
        (entry_of (steps_of mounts) path) }
{}

/// umount2 removes an entry and later entries below it. At the path and below, the earlier entries are visible again; elsewhere
/// nothing changes.
///
/// umount2 never removes the first entry, at `/`. Any number of calls leaves a part of the table, in the same order.
pub fn unmounted_tables()
    ensures removes { (mounts next : Mounts) (path : Path) (detach : Bool)
        → after_umount mounts path detach ≡ Ok next → Removes path (steps_of mounts) (steps_of next) }
    ensures never_the_root { (mounts : Mounts) (detach : Bool) → after_umount mounts [] detach ≡ Err einval }
    ensures elsewhere { (mounts next : Mounts) (path other : Path) (detach : Bool)
        → after_umount mounts path detach ≡ Ok next → is_prefix path other ≡ false
        → entry_of (steps_of next) other ≡ entry_of (steps_of mounts) other }
    ensures at_the_path_and_below { (mounts next : Mounts) (path other : Path) (detach : Bool) (split : SplitOf Mount)
        → mount_at path mounts ≡ Some split → after_umount mounts path detach ≡ Ok next
        → is_prefix path other ≡ true
        → entry_of (steps_of next) other ≡ entry_of (steps_of split.earlier) other }
    ensures a_part_with_the_first { (mounts next : Mounts) (path : Path) (detach : Bool)
        → StartsAtRoot (steps_of mounts) → after_umount mounts path detach ≡ Ok next
        → IsTrimmed (steps_of next) (steps_of mounts) }
    ensures a_part_by_any_calls { (table last : Table)
        → StartsAtRoot table → Unmounts table last → IsTrimmed last table }
{}

/// In an ordered table without locked mounts, calls of umount2 can make a path belong to an entry if and only if the table has
/// that entry. This holds for each path at or below the entry's mount point. A table whose mount points are in ascending byte
/// order is ordered.
pub fn uncovered_entries()
    ensures uncovered_stands { (table : Table) (entry : MountStep) (rest : Path)
        → StartsAtRoot table → Uncovers table entry rest → Has table entry }
    ensures stands_uncovered { (table : Table) (entry : MountStep) (rest : Path)
        → IsOrdered table → Has table entry → Uncovers table entry rest }
    ensures ascending_is_ordered { (table : Table)
        → AreAscending (map (λ entry. entry.place) table) → IsOrdered table }
{}
