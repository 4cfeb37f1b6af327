//! mount(2) with MS_REMOUNT and MS_BIND: changes the flags of an entry.

ghost use Rattle.std.specs.Prelude.{◌≡◌};
ghost use Rattle.kern_mounts.specs.Answer.{Becomes};
ghost use Rattle.kern_mounts.specs.Remount.{after_remount, with_root_flags};

use super::MountTable;
use crate::step::Flags;
use abs_path::AbsPath;
use linux_numbers::errnos::{EINVAL, EPERM};

impl MountTable {
    /// Replaces the flags of the entry at this place, mount(2) with MS_REMOUNT and MS_BIND. Takes no memory.
    ///
    /// Returns EINVAL if the path's entry has another place, then EPERM if the entry keeps a flag that is not given. On either
    /// error the table is unchanged.
    pub fn remount(&mut self, place: &AbsPath, flags: Flags) -> Result<(), u32>
        ensures remounts { Becomes self.old self.new result (after_remount self.old place.now flags) }
    {
        let at = self.resolve(place);
        if self.mounts[at].step.place != *place {
            return Err(EINVAL);
        }
        if self.mounts[at].kept.lacks(flags) {
            return Err(EPERM);
        }
        self.mounts[at].step.flags = flags;
        Ok(())
    }

    /// Replaces the flags of the first entry, at `/`, whatever flags it keeps. A launcher takes this step; no call of a process
    /// does. Takes no memory.
    pub fn set_root_flags(&mut self, flags: Flags)
        ensures sets { self.new ≡ with_root_flags flags self.old }
    {
        self.mounts[0].step.flags = flags;
    }
}
