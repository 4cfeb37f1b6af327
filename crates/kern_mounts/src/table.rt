//! A mount table: its first entry, lookups of entries, additions and copies.
//!
//! A contract sees a table as the list of its mounts. A tree over the parts of the mount points finds a path's entry among the
//! first mounts, such as the mounts that a launch adds. Later mounts are searched one by one, so a recursive bind that copies
//! many mounts leaves the tree as it is. The copies of a table share its tree and the texts of its paths.

mod bind;
mod finding;
mod known;
mod remount;
mod umount;

ghost use Rattle.std.specs.Prelude.{◌≡◌, ◌+◌, drop, ◌++◌, ◌∷◌, [], ◌<◌, ◌≤◌, ◌↔◌, length, map, slice_get, option_map, Some, IfOk, OnOk, OnErr, IsErrOf};
ghost use Rattle.linux_numbers.specs.Errnos.{enospc};
ghost use Rattle.linux_numbers.specs.Limits.{mount_max};
ghost use Rattle.kern_mounts.specs.Table.{IsTable, IsFullOrMemory};
ghost use Rattle.kern_mounts.specs.Mounts.{steps_of, plain, first_mounts};
ghost use Rattle.kern_mounts.specs.Entry.{Belongs, entry_of};
ghost use Rattle.kern_mounts.specs.Push.{after_push};
ghost use Rattle.kern_mounts.specs.Copying.{locked, locked_copy};
ghost use Rattle.kern_mounts.specs.Answer.{BecomesOrMemory};

use crate::error::MountError;
use crate::step::{Flags, Mount, MountStep, What};
use abs_path::AbsPath;
use abs_path::place_tree::PlaceTree;
use finding::last_leading;
use known::KnownPlaces;
use linux_numbers::errnos::ENOSPC;
use linux_numbers::limits::MOUNT_MAX;
use std::alloc::{AllocError, Global};
use std::marker::Model;

/// The mounts that the processes of a mount namespace see, mount_namespaces(7). The first is at `/`, and later mounts cover
/// earlier ones. There are at most 4,096.
#[derive(Drop)]
pub struct MountTable {
    mounts: Vec<Mount>,
    // the mount points of the first `known` mounts
    places: KnownPlaces,
    known: usize,
    // true until a mount is removed: only then may `places` still learn the mount points of new mounts
    only_grew: bool,
}

impl Model for MountTable {
    ghost use Rattle.std.specs.Prelude.{List};
    ghost use Rattle.kern_mounts.specs.declared.step.Mount.{Mount};
    ghost use Rattle.kern_mounts.specs.Mounts.{steps_of};
    ghost use Rattle.kern_mounts.specs.Table.{IsTable, Knows};

    ghost Value = { List Mount };

    ghost view = { λ table. table.mounts.items };

    ghost invariant = { λ table. IsTable (steps_of table.mounts.items) × Knows table.known (steps_of table.mounts.items) table.places };
}

impl MountTable {
    /// Makes the table of the host itself. Its one entry, at `/`, shows the host's `/` without flags.
    pub fn new(alloc: Global) -> Result<MountTable, AllocError>
        ensures shows_the_host { IfOk result (λ table. table ≡ first_mounts) }
    {
        let mut mounts = Vec::new(alloc);
        let mut tree = PlaceTree::new(alloc)?;
        tree.push(&AbsPath::root(alloc))?;
        let places = KnownPlaces::of(alloc, tree)?;
        mounts.push(Mount::plain(MountStep {
            place: AbsPath::root(alloc),
            what: What::Host(AbsPath::root(alloc)),
            flags: Flags::default(),
        }))?;
        Ok(MountTable {
            mounts,
            places,
            known: 1,
            only_grew: true,
        })
    }

    /// Returns the number of entries.
    pub fn len(&self) -> usize
        ensures number_of_entries { result ≡ length self.now }
        ensures holds_of_each_table { IsTable (steps_of self.now) }
    {
        self.mounts.len()
    }

    /// Returns the entry of this number, which is below `len`. The first is 0.
    pub fn entry(&self, at: usize) -> &MountStep
        requires in_range { at < length self.now }
        ensures entry { slice_get (steps_of self.now) at ≡ Some result.now }
    {
        &self.mounts[at].step
    }

    /// Whether the entry of this number, which is below `len`, is locked. A copy for a less privileged user namespace locks its
    /// entries, and a locked entry cannot be unmounted alone.
    pub fn locked(&self, at: usize) -> bool
        requires in_range { at < length self.now }
        ensures of_the_mount { option_map (λ mount. mount.locked) (slice_get self.now at) ≡ Some result }
    {
        self.mounts[at].locked
    }

    /// Returns the flags that no remount can clear from the entry of this number, which is below `len`.
    pub fn kept(&self, at: usize) -> Flags
        requires in_range { at < length self.now }
        ensures of_the_mount { option_map (λ mount. mount.kept) (slice_get self.now at) ≡ Some result }
    {
        self.mounts[at].kept
    }

    /// Returns the number of the entry that the path belongs to: the last whose place leads to the path. Takes no memory.
    pub fn resolve(&self, path: &AbsPath) -> usize
        ensures last_that_leads { Belongs (steps_of self.now) path.now result }
        ensures entry_of_the_path { slice_get (steps_of self.now) result ≡ entry_of (steps_of self.now) path.now }
    {
        match last_leading(&self.mounts, &self.places, self.known, path) {
            Some(at) => at,
            None => unreachable!(),
        }
    }

    /// Adds an entry after the others. It is not locked and keeps no flags. Returns ENOSPC if the table is full. On any error
    /// the table is unchanged.
    pub fn push(&mut self, step: MountStep) -> Result<(), MountError>
        ensures appended { OnOk result (self.new ≡ self.old ++ plain step ∷ []) }
        ensures unchanged_on_error { OnErr result (self.new ≡ self.old) }
        ensures full_exactly_at_the_limit { IsErrOf result (MountError.Errno enospc) ↔ (length self.old ≡ mount_max) }
        ensures no_other_errno { IsFullOrMemory result }
        ensures by_the_rule { BecomesOrMemory self.old self.new result (after_push self.old step) }
    {
        if self.mounts.len() >= MOUNT_MAX {
            return Err(MountError::Errno(ENOSPC));
        }
        let mut more = Vec::new(*self.mounts.allocator());
        more.push(Mount::plain(step))?;
        self.grow(more)?;
        self.learn();
        Ok(())
    }

    // Adds mounts after the others, or none if memory runs out. `places` does not learn their mount points.
    fn grow(&mut self, more: Vec<Mount>) -> Result<(), AllocError>
        requires few { length (self.old ++ more.items) ≤ mount_max }
        ensures appended { OnOk result (self.new ≡ self.old ++ more.items) }
        ensures unchanged_on_error { OnErr result (self.new ≡ self.old) }
    {
        add_all(&mut self.mounts, more)
    }

    // Adds the last mount's place to `places`, if all others are known and none was removed. It stays unknown if memory runs
    // out, or if copies of the table share a large tree.
    fn learn(&mut self)
        ensures { self.new ≡ self.old }
    {
        let at = self.known;
        if self.only_grew && at + 1 == self.mounts.len() {
            let alloc = *self.mounts.allocator();
            match self.places.add(alloc, at, &self.mounts[at].step.place) {
                Ok(()) => self.known = at + 1,
                Err(_) => {}
            }
        }
    }

    /// Copies the table, for a mount namespace that starts with the mounts of another, mount_namespaces(7).
    pub fn copy(&self) -> Result<MountTable, AllocError>
        ensures equal { IfOk result (λ table. table ≡ self.now) }
    {
        Ok(MountTable {
            mounts: copied(*self.mounts.allocator(), &self.mounts)?,
            places: self.places.copy()?,
            known: self.known,
            only_grew: self.only_grew,
        })
    }

    /// Copies the table, locks each entry and keeps its flags. A mount namespace starts with such a copy if it belongs to
    /// another user namespace than the original, mount_namespaces(7).
    pub fn copy_locked(&self) -> Result<MountTable, AllocError>
        ensures each_locked { IfOk result (λ table. table ≡ locked_copy self.now) }
    {
        Ok(MountTable {
            mounts: copied_locked(*self.mounts.allocator(), &self.mounts)?,
            places: self.places.copy()?,
            known: self.known,
            only_grew: self.only_grew,
        })
    }
}

// The mounts after the mount of this number.
fn later_than(mounts: &[Mount], at: usize) -> &[Mount]
    requires in_range { at < length mounts.now }
    ensures behind { result.now ≡ drop (at + 1) mounts.now }
{
    &mounts[at + 1..]
}

// Copies these mounts.
fn copied(alloc: Global, mounts: &[Mount]) -> Result<Vec<Mount>, AllocError>
    ensures same { IfOk result (λ copies. copies.items ≡ mounts.now) }
{
    let mut copies = Vec::new(alloc);
    for mount in mounts {
        copies.push(mount.copy(alloc)?)?;
    }
    Ok(copies)
}

// Copies these mounts, each locked and with its flags kept.
fn copied_locked(alloc: Global, mounts: &[Mount]) -> Result<Vec<Mount>, AllocError>
    ensures locked { IfOk result (λ copies. copies.items ≡ locked_copy mounts.now) }
{
    let mut copies = Vec::new(alloc);
    for mount in mounts {
        copies.push(mount.locked_copy(alloc)?)?;
    }
    Ok(copies)
}

// Adds mounts after the others, or none if memory runs out.
fn add_all(mounts: &mut Vec<Mount>, mut more: Vec<Mount>) -> Result<(), AllocError>
    ensures added { OnOk result (mounts.new.items ≡ mounts.old.items ++ more.items) }
    ensures stay { OnErr result (mounts.new.items ≡ mounts.old.items) }
{
    mounts.append(&mut more)?;
    Ok(())
}
