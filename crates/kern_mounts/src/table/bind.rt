//! mount(2) with MS_BIND and MS_REC: shows what a path shows at another path too.

ghost use Rattle.std.specs.Prelude.{◌≡◌, ◌&&◌, ◌+◌, ◌<◌, ◌++◌, ◌≤◌, [], true, false, not, length, take, drop, count_by, if◌then◌else◌, IfOk, IfSome, IsOk, Err, MatchOption, is_some};
ghost use Rattle.std.specs.List.{list_any};
ghost use Rattle.abs_path.specs.Paths.{parts_of};
ghost use Rattle.abs_path.specs.Prefix.{is_prefix, rest_of, IsRest};
ghost use Rattle.linux_numbers.specs.Limits.{mount_max};
ghost use Rattle.kern_mounts.specs.Entry.{Belongs};
ghost use Rattle.kern_mounts.specs.Answer.{BecomesOrMemory};
ghost use Rattle.kern_mounts.specs.Mounts.{steps_of, stands_below};
ghost use Rattle.kern_mounts.specs.Bind.{bound_entry, bound_mount, object_at, goes_too_far, is_locked_below, is_long};
ghost use Rattle.kern_mounts.specs.Bind.{can_show, can_bind, after_bind};
ghost use Rattle.kern_mounts.specs.Pushed.{HasBound, HasCopies};

use super::{MountTable, later_than};
use crate::error::MountError;
use crate::step::{Mount, MountStep, What};
use abs_path::AbsPath;
use linux_numbers::errnos::{EINVAL, ENAMETOOLONG, ENOSPC};
use linux_numbers::limits::MOUNT_MAX;
use std::alloc::{AllocError, Global};

// How many bytes the text of a path has at most.
const LONGEST: usize = 512;

impl MountTable {
    /// Whether `bind` can bind this source. The source's entry must not be hidden; if the host has it, its path on the host
    /// must have at most 512 bytes. Takes no memory.
    pub fn can_bind(&self, source: &AbsPath) -> bool
        ensures by_the_entry { result ≡ can_bind (steps_of self.now) source.now }
    {
        can_show(&self.mounts[self.resolve(source)].step, source)
    }

    /// Shows at the target what the table shows at the source, mount(2) with MS_BIND. `can_bind` must be true of the source.
    ///
    /// The new entry is added after the others. It has the flags of the source's entry, keeps the flags which that entry keeps,
    /// and is not locked. With `recursive` (MS_REC), copies of some entries follow it in their order, at the same places below
    /// the target: of the entries later than the source's and strictly below the source. A copy keeps the same flags and is
    /// locked if its original is.
    ///
    /// Errors, in this order; the table is unchanged on any error:
    ///
    /// - EINVAL if the call is not `recursive` and a later entry than the source's is locked and strictly below the source
    /// - ENAMETOOLONG if the place of a copy would have more than 512 bytes
    /// - ENOSPC if the table would have more than 4,096 entries
    /// - `Memory` if memory runs out
    pub fn bind(
        &mut self,
        source: &AbsPath,
        target: &AbsPath,
        recursive: bool,
    ) -> Result<(), MountError>
        requires can_bind { can_bind (steps_of self.old) source.now ≡ true }
        ensures binds { BecomesOrMemory self.old self.new result
            (after_bind self.old source.now target.now recursive) }
    {
        let at = self.resolve(source);
        add_bound(&mut self.mounts, at, source, target, recursive)?;
        self.learn();
        Ok(())
    }
}

// Adds the mounts of a bind, or returns why the bind is refused and leaves the mounts as they were. The source belongs to the
// mount of this number. If all possible copies might not fit, they are counted first, so that a refused bind copies nothing.
fn add_bound(
    mounts: &mut Vec<Mount>,
    at: usize,
    source: &AbsPath,
    target: &AbsPath,
    recursive: bool,
) -> Result<(), MountError>
    requires belongs { Belongs (steps_of mounts.old.items) source.now at }
    requires can_bind { can_bind (steps_of mounts.old.items) source.now ≡ true }
    requires few { length mounts.old.items ≤ mount_max }
    ensures by_the_rule { BecomesOrMemory mounts.old.items mounts.new.items result
        (after_bind mounts.old.items source.now target.now recursive) }
    ensures behind { mounts.new.items ≡ mounts.old.items ++ drop (length mounts.old.items) mounts.new.items }
    ensures still_few { length mounts.new.items ≤ mount_max }
{
    if uncovers(mounts, at, source, recursive) {
        return Err(MountError::Errno(EINVAL));
    }
    let before = mounts.len();
    let end = if recursive { before } else { at + 1 };
    if before + (end - at) > MOUNT_MAX {
        if let Some(errno) = refusal(mounts, at, source, target, recursive) {
            return Err(MountError::Errno(errno));
        }
    }
    if let Ok(true) = push_bound(mounts, at, end, source, target) {
        if mounts.len() <= MOUNT_MAX {
            return Ok(());
        }
    }
    mounts.truncate(before);
    match refusal(mounts, at, source, target, recursive) {
        Some(errno) => Err(MountError::Errno(errno)),
        None => Err(MountError::Memory),
    }
}

// The errno of a bind that uncovers nothing, or None if it is not refused.
fn refusal(
    mounts: &[Mount],
    at: usize,
    source: &AbsPath,
    target: &AbsPath,
    recursive: bool,
) -> Option<u32>
    requires belongs { Belongs (steps_of mounts.now) source.now at }
    requires covered { (not recursive && list_any (is_locked_below source.now) (drop (at + 1) mounts.now)) ≡ false }
    requires few { length mounts.now ≤ mount_max }
    ensures { MatchOption result
        (IsOk (after_bind mounts.now source.now target.now recursive))
        (λ errno. after_bind mounts.now source.now target.now recursive ≡ Err errno) }
{
    let Some(copies) = count_copies(copied_among(mounts, at, recursive), source, target) else {
        return Some(ENAMETOOLONG);
    };
    if mounts.len() + (1 + copies) > MOUNT_MAX {
        Some(ENOSPC)
    } else {
        None
    }
}

// Adds the mount at the target, and copies of the mounts from the source's to `end`. Returns false if a copy's place would be
// too long. Then, or if memory runs out, some may have been added.
fn push_bound(
    mounts: &mut Vec<Mount>,
    at: usize,
    end: usize,
    source: &AbsPath,
    target: &AbsPath,
) -> Result<bool, AllocError>
    requires belongs { Belongs (steps_of mounts.old.items) source.now at }
    requires can_bind { can_bind (steps_of mounts.old.items) source.now ≡ true }
    requires behind { at < end }
    requires in_range { end ≤ length mounts.old.items }
    ensures front_stays { take (length mounts.old.items) mounts.new.items ≡ mounts.old.items }
    ensures pushed { IfOk result (λ all. all ≡ true → HasBound mounts.old.items mounts.new.items at
        (drop (at + 1) (take end mounts.old.items)) source.now target.now) }
{
    let alloc = *mounts.allocator();
    mounts.reserve(end - at)?;
    let bound = bound_mount(alloc, &mounts[at], source, target)?;
    mounts.push(bound)?;
    push_copies(mounts, at + 1, end, source, target)
}

// Adds copies of the mounts `from` to `end` that are strictly below the source. Returns false if a copy's place would be too
// long. Then, or if memory runs out, some may have been added.
fn push_copies(
    mounts: &mut Vec<Mount>,
    from: usize,
    end: usize,
    source: &AbsPath,
    target: &AbsPath,
) -> Result<bool, AllocError>
    requires behind { from ≤ end }
    requires in_range { end ≤ length mounts.old.items }
    ensures front_stays { take (length mounts.old.items) mounts.new.items ≡ mounts.old.items }
    ensures pushed { IfOk result (λ all. all ≡ true
        → HasCopies mounts.old.items mounts.new.items (drop from (take end mounts.old.items)) source.now target.now) }
{
    let alloc = *mounts.allocator();
    for index in from..end {
        let other = &mounts[index];
        if let Some(rest) = rest_below(other, source) {
            if is_long(target, rest) {
                return Ok(false);
            }
            let copy = moved_mount(alloc, other, rest, target)?;
            mounts.push(copy)?;
        }
    }
    Ok(true)
}

// Whether a bind that is not recursive would uncover a path that a locked mount after this number covers.
fn uncovers(mounts: &[Mount], at: usize, source: &AbsPath, recursive: bool) -> bool
    requires in_range { at < length mounts.now }
    ensures { result ≡ (not recursive && list_any (is_locked_below source.now) (drop (at + 1) mounts.now)) }
{
    !recursive && any_locked_below(later_than(mounts, at), source)
}

// Whether one of these mounts is locked and strictly below the source.
fn any_locked_below(later: &[Mount], source: &AbsPath) -> bool
    ensures { result ≡ list_any (is_locked_below source.now) later.now }
{
    later
        .iter()
        .any(|mount| mount.locked && mount.step.place.is_below(source))
}

// The mounts that a bind may copy: the mounts after this number, or none.
fn copied_among(mounts: &[Mount], at: usize, recursive: bool) -> &[Mount]
    requires in_range { at < length mounts.now }
    ensures { result.now ≡ (if recursive then drop (at + 1) mounts.now else []) }
{
    if recursive {
        later_than(mounts, at)
    } else {
        &[]
    }
}

// Whether a path followed by a rest is too long.
#[inline(always)]
fn is_long(onto: &AbsPath, rest: &str) -> bool
    requires is_rest { IsRest rest.now }
    ensures { result ≡ is_long (onto.now ++ parts_of rest.now) }
{
    onto.tail_len() + rest.len() > LONGEST
}

// Whether a bind can bind what the entry shows at the source.
fn can_show(entry: &MountStep, source: &AbsPath) -> bool
    requires leads { is_prefix entry.now.place source.now ≡ true }
    ensures { result ≡ can_show entry.now.what entry.now.place source.now }
{
    match &entry.what {
        What::Host(host) => !is_long(host, entry.place.rest(source).unwrap()),
        What::Empty => true,
        What::Hidden { .. } => false,
    }
}

// What the entry shows at the source.
fn object_at(alloc: Global, entry: &MountStep, source: &AbsPath) -> Result<What, AllocError>
    requires leads { is_prefix entry.now.place source.now ≡ true }
    requires can_show { can_show entry.now.what entry.now.place source.now ≡ true }
    ensures { IfOk result (λ what. what ≡ object_at source.now entry.now entry.now.what) }
{
    match &entry.what {
        What::Host(host) => {
            let shown = source.moved(alloc, &entry.place, host)?;
            Ok(What::Host(shown))
        }
        What::Empty => Ok(What::Empty),
        What::Hidden { directory } => Ok(What::Hidden {
            directory: *directory,
        }),
    }
}

// The rest of the mount's place after the source, or None if the mount is not strictly below the source.
#[inline(always)]
fn rest_below<'a>(mount: &'a Mount, source: &AbsPath) -> Option<&'a str>
    ensures below { is_some result ≡ stands_below source.now mount.now }
    ensures behind { IfSome result (λ rest. parts_of rest.now ≡ rest_of source.now mount.now.step.place) }
    ensures may_be_joined { IfSome result (λ rest. IsRest rest.now) }
{
    let rest = source.rest(&mount.step.place)?;
    if rest.is_empty() { None } else { Some(rest) }
}

// The number of copies, or None if the place of a copy would be too long.
fn count_copies(later: &[Mount], source: &AbsPath, target: &AbsPath) -> Option<usize>
    ensures { MatchOption result
        (list_any (λ mount. goes_too_far source.now target.now mount.step) later.now ≡ true)
        (λ copies. (list_any (λ mount. goes_too_far source.now target.now mount.step) later.now ≡ false)
        × (copies ≡ count_by (stands_below source.now) later.now)) }
{
    let mut copies = 0;
    for mount in later {
        if let Some(rest) = rest_below(mount, source) {
            if is_long(target, rest) {
                return None;
            }
            copies += 1;
        }
    }
    Some(copies)
}

// The path followed by a rest. The result must not be too long, so only memory can run out.
#[inline(always)]
fn joined(alloc: Global, path: &AbsPath, rest: &str) -> Result<AbsPath, AllocError>
    requires is_rest { IsRest rest.now }
    requires short { is_long (path.now ++ parts_of rest.now) ≡ false }
    ensures { IfOk result (λ joined. joined ≡ path.now ++ parts_of rest.now) }
{
    path.join(alloc, rest).or(Err(AllocError))
}

// The copy of an entry. Its place after the source is this rest.
#[inline(always)]
fn moved(
    alloc: Global,
    entry: &MountStep,
    rest: &str,
    target: &AbsPath,
) -> Result<MountStep, AllocError>
    requires is_rest { IsRest rest.now }
    requires short { is_long (target.now ++ parts_of rest.now) ≡ false }
    ensures { IfOk result (λ step. step ≡ record entry.now { place = target.now ++ parts_of rest.now }) }
{
    Ok(MountStep {
        place: joined(alloc, target, rest)?,
        what: entry.what.copy(alloc)?,
        flags: entry.flags,
    })
}

// The entry at the target.
fn bound_entry(
    alloc: Global,
    entry: &MountStep,
    source: &AbsPath,
    target: &AbsPath,
) -> Result<MountStep, AllocError>
    requires leads { is_prefix entry.now.place source.now ≡ true }
    requires can_show { can_show entry.now.what entry.now.place source.now ≡ true }
    ensures { IfOk result (λ step. step ≡ bound_entry source.now target.now entry.now) }
{
    Ok(MountStep {
        place: target.copy(alloc)?,
        what: object_at(alloc, entry, source)?,
        flags: entry.flags,
    })
}

// The copy of a mount. Its place after the source is this rest.
#[inline(always)]
fn moved_mount(
    alloc: Global,
    mount: &Mount,
    rest: &str,
    target: &AbsPath,
) -> Result<Mount, AllocError>
    requires is_rest { IsRest rest.now }
    requires short { is_long (target.now ++ parts_of rest.now) ≡ false }
    ensures { IfOk result (λ copy. copy
        ≡ record mount.now { step = record mount.now.step { place = target.now ++ parts_of rest.now } }) }
{
    Ok(Mount {
        step: moved(alloc, &mount.step, rest, target)?,
        locked: mount.locked,
        kept: mount.kept,
    })
}

// The mount at the target.
fn bound_mount(
    alloc: Global,
    mount: &Mount,
    source: &AbsPath,
    target: &AbsPath,
) -> Result<Mount, AllocError>
    requires leads { is_prefix mount.now.step.place source.now ≡ true }
    requires can_show { can_show mount.now.step.what mount.now.step.place source.now ≡ true }
    ensures { IfOk result (λ bound. bound ≡ bound_mount source.now target.now mount.now) }
{
    Ok(Mount {
        step: bound_entry(alloc, &mount.step, source, target)?,
        locked: false,
        kept: mount.kept,
    })
}
