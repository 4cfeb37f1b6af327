//! Laws of locked mounts: what a less privileged namespace can never uncover, whatever calls its processes make.

ghost use Rattle.std.specs.Prelude.{◌≡◌, ◌++◌, Bool, Some, Ok, true, map};
ghost use Rattle.abs_path.specs.Paths.{Path};
ghost use Rattle.abs_path.specs.Prefix.{rest_of};
ghost use Rattle.kern_mounts.specs.declared.step.Flags.{Flags};
ghost use Rattle.kern_mounts.specs.declared.step.Mount.{Mount};
ghost use Rattle.kern_mounts.specs.declared.step.MountStep.{MountStep};
ghost use Rattle.kern_mounts.specs.declared.step.What.TheVariants.{Host, Empty};
ghost use Rattle.kern_mounts.specs.Split.{Table, SplitOf};
ghost use Rattle.kern_mounts.specs.Unmounts.{IsOrdered};
ghost use Rattle.kern_mounts.specs.Umount.{after_umount};
ghost use Rattle.kern_mounts.specs.Remount.{after_remount};
ghost use Rattle.kern_mounts.specs.Push.{after_push};
ghost use Rattle.kern_mounts.specs.Bind.{after_bind};
ghost use Rattle.kern_mounts.specs.Mounts.{Mounts, steps_of, plain, ArePlain};
ghost use Rattle.kern_mounts.specs.MountAt.{mount_at};
ghost use Rattle.kern_mounts.specs.Copying.{locked_copy};
ghost use Rattle.kern_mounts.specs.Backing.{Shows, Widens, AreBacked, AreShown};
ghost use Rattle.kern_mounts.specs.Changes.{Changes};

/// If no mount is locked and none keeps a flag, as in the table of a launched service, every successful call leaves it so. Such
/// mounts are determined by their entries alone.
pub fn plain_mounts()
    ensures umounted { (mounts next : Mounts) (path : Path) (detach : Bool)
        → ArePlain mounts → after_umount mounts path detach ≡ Ok next → ArePlain next }
    ensures remounted { (mounts next : Mounts) (place : Path) (flags : Flags)
        → ArePlain mounts → after_remount mounts place flags ≡ Ok next → ArePlain next }
    ensures pushed { (mounts next : Mounts) (step : MountStep)
        → ArePlain mounts → after_push mounts step ≡ Ok next → ArePlain next }
    ensures bound { (mounts next : Mounts) (source target : Path) (recursive : Bool)
        → ArePlain mounts → after_bind mounts source target recursive ≡ Ok next → ArePlain next }
    ensures of_entries { (table : Table) → steps_of (map plain table) ≡ table }
    ensures plain_again { (mounts : Mounts) → ArePlain mounts → map plain (steps_of mounts) ≡ mounts }
{}

/// Every successful call leaves the mounts backed, and so does a copy.
pub fn backed_mounts()
    ensures umount { (shows : Shows) (mounts next : Mounts) (path : Path) (detach : Bool)
        → AreBacked shows mounts → after_umount mounts path detach ≡ Ok next → AreBacked shows next }
    ensures remount { (shows : Shows) (mounts next : Mounts) (place : Path) (flags : Flags)
        → AreBacked shows mounts → after_remount mounts place flags ≡ Ok next → AreBacked shows next }
    ensures empty { (shows : Shows) (mounts next : Mounts) (target : Path) (flags : Flags) → AreBacked shows mounts
        → after_push mounts (record { place = target; what = Empty; flags = flags }) ≡ Ok next → AreBacked shows next }
    ensures bind { (shows : Shows) (mounts next : Mounts) (source target : Path) (recursive : Bool)
        → AreBacked shows mounts → after_bind mounts source target recursive ≡ Ok next → AreBacked shows next }
    ensures copied { (shows : Shows) (mounts : Mounts)
        → Widens shows → AreBacked shows mounts → AreBacked shows (locked_copy mounts) }
    ensures any_calls { (shows : Shows) (mounts last : Mounts)
        → Widens shows → AreBacked shows mounts → Changes mounts last → AreBacked shows last }
{}

/// A locked copy has the same entries. If the table is ordered, its locked copy is backed by what the table shows.
pub fn first_copies()
    ensures same_entries { (mounts : Mounts) → steps_of (locked_copy mounts) ≡ steps_of mounts }
    ensures backed { (shows : Shows) (table : Table)
        → IsOrdered table → AreShown shows table → AreBacked shows (locked_copy (map plain table)) }
{}

/// If a path of backed mounts shows a path of the host, then `shows` is true of that host path with the flags of the path's
/// mount.
pub fn backed_paths()
    ensures shown { (shows : Shows) (mounts : Mounts) (path source : Path) (split : SplitOf Mount)
        → Widens shows → AreBacked shows mounts → mount_at path mounts ≡ Some split → split.entry.step.what ≡ Host source
        → shows (source ++ rest_of split.entry.step.place path) split.entry.step.flags ≡ true }
{}
