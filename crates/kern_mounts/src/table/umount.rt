//! umount2(2): removes an entry, and with MNT_DETACH the later entries below it.

ghost use Rattle.std.specs.Prelude.{◌≡◌, ◌+◌, ◌<◌, ◌≤◌, ◌++◌, length, take, drop, filter, not};
ghost use Rattle.std.specs.List.{list_any};
ghost use Rattle.kern_mounts.specs.Answer.{Becomes};
ghost use Rattle.kern_mounts.specs.Mounts.{stands_below};
ghost use Rattle.kern_mounts.specs.Split.{Table};
ghost use Rattle.kern_mounts.specs.Table.{Knows};
ghost use Rattle.kern_mounts.specs.Umount.{after_umount};

use super::known::KnownPlaces;
use super::{MountTable, later_than};
use crate::step::Mount;
use abs_path::AbsPath;
use linux_numbers::errnos::{EBUSY, EINVAL};

// The most places that the tree keeps when one of them is removed: it renumbers each place that it keeps.
const MOST_LEFT: usize = 256;

impl MountTable {
    /// Removes the entry at the path, and with `detach` (MNT_DETACH) the later entries strictly below it, umount2(2). Takes no
    /// memory.
    ///
    /// Returns EINVAL if the path is `/`, if the path's entry has another place, or if that entry is locked. Then returns EBUSY
    /// if `detach` is false and a later entry is strictly below the path. On either error the table is unchanged.
    pub fn umount(&mut self, path: &AbsPath, detach: bool) -> Result<(), u32>
        ensures unmounts { Becomes self.old self.new result (after_umount self.old path.now detach) }
    {
        if path.is_root() {
            return Err(EINVAL);
        }
        let at = self.resolve(path);
        if self.mounts[at].step.place != *path {
            return Err(EINVAL);
        }
        if self.mounts[at].locked {
            return Err(EINVAL);
        }
        if !detach && any_below(later_than(&self.mounts, at), path) {
            return Err(EBUSY);
        }
        take_away(&mut self.mounts, at, path);
        self.known = known_still(&mut self.places, self.known, at);
        self.only_grew = false;
        Ok(())
    }
}

// Returns how many places are still known once the mount of this number is removed, and perhaps later mounts too.
fn known_still(places: &mut KnownPlaces, known: usize, at: usize) -> usize
    ensures knows_those { (table rest : Table) → Knows known table places.old → at ≤ length table → Knows result (take at table ++ rest) places.new }
{
    if known <= at {
        return known;
    }
    places.keep(at.min(MOST_LEFT))
}

// Whether one of these mounts is strictly below the path.
fn any_below(mounts: &[Mount], path: &AbsPath) -> bool
    ensures { result ≡ list_any (stands_below path.now) mounts.now }
{
    mounts.iter().any(|mount| mount.step.place.is_below(path))
}

// Removes the mount of this number, and the later mounts strictly below the path.
fn take_away(mounts: &mut Vec<Mount>, at: usize, path: &AbsPath)
    requires in_range { at < length mounts.old.items }
    ensures the_mount_and_below { mounts.new.items
        ≡ take at mounts.old.items ++ filter (λ mount. not (stands_below path.now mount)) (drop (at + 1) mounts.old.items) }
{
    let mut kept = at;
    for index in at + 1..mounts.len() {
        if mounts[index].step.place.is_below(path) {
            continue;
        }
        mounts.swap(kept, index);
        kept += 1;
    }
    mounts.truncate(kept);
}
