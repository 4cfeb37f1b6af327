//! mount(2) and umount2(2) of a process that may mount. A call changes the table in place, or is refused.

ghost use Rattle.std.specs.Prelude.{◌≡◌, false, IsErrOf};
ghost use Rattle.site_table.specs.Table.{row_at};
ghost use Rattle.kern_mounts.specs.Answer.{Becomes, BecomesOrMemory};
ghost use Rattle.kern_mounts.specs.Push.{after_push};
ghost use Rattle.kern_mounts.specs.Remount.{after_remount};
ghost use Rattle.kern_mounts.specs.declared.step.What.TheVariants.{Empty as an_empty_file_system};
ghost use Rattle.kernel_model.specs.kern_files.Bits.{has_all};
ghost use Rattle.kernel_model.specs.kern_files.MountCall.{ms_remount_bind, flags_of, after_mount};
ghost use Rattle.kernel_model.specs.kern_files.UmountCall.{umount_answer};

use crate::kern_files::flags::has_some;
use crate::kern_files::planning::{Change, planned};
use abs_path::AbsPath;
use kern_mounts::linux_numbers::errnos::{EINVAL, ENOSPC};
use kern_mounts::linux_numbers::limits::MOUNT_MAX;
use kern_mounts::{Flags, MountError, MountStep, MountTable, What};
use site_table::SiteTable;
use std::alloc::Global;

// MS_RDONLY, mount(2): the mount is read-only.
const MS_RDONLY: u32 = 1;

// MS_NOSUID, mount(2): set-id bits and file capabilities have no effect there.
const MS_NOSUID: u32 = 2;

// MS_NOEXEC, mount(2): no program there can be executed.
const MS_NOEXEC: u32 = 8;

// MNT_DETACH, umount2(2): removes the mounts below, too.
const MNT_DETACH: u32 = 2;

// The flags of a new or remounted mount.
fn flags_of(flags: u32) -> Flags
    ensures { result ≡ flags_of flags }
{
    Flags {
        read_only: has_some(MS_RDONLY, flags),
        no_exec: has_some(MS_NOEXEC, flags),
        no_suid: has_some(MS_NOSUID, flags),
    }
}

fn remount(table: &mut MountTable, target: &AbsPath, flags: u32) -> Result<(), MountError>
    ensures by_the_rule { BecomesOrMemory table.old table.new result
        (after_remount table.old target.now (flags_of flags)) }
    ensures takes_no_memory { IsErrOf result MountError.Memory → ⊥ }
{
    table
        .remount(target, flags_of(flags))
        .map_err(MountError::Errno)
}

// Mounts an empty file system on the target.
fn mount_empty(
    alloc: Global,
    table: &mut MountTable,
    target: &AbsPath,
    flags: u32,
) -> Result<(), MountError>
    ensures { BecomesOrMemory table.old table.new result (after_push table.old
        (record { place = target.now; what = an_empty_file_system; flags = flags_of flags })) }
{
    if table.len() >= MOUNT_MAX {
        return Err(MountError::Errno(ENOSPC));
    }
    let place = target.copy(alloc)?;
    table.push(MountStep {
        place,
        what: What::Empty,
        flags: flags_of(flags),
    })
}

/// mount(2), of a process with CAP_SYS_ADMIN: binds the source at the target, mounts an empty file system there, or changes the
/// flags of the mount there.
///
/// Errors, in this order; the table is unchanged on any error:
///
/// - EINVAL for a kind of mount that is not modelled, and for MS_REMOUNT without MS_BIND
/// - For a remount: EINVAL if the target is not the place of its mount, then EPERM if a flag is missing that the mount keeps. A
///   remount has none of the errors below.
/// - EBUSY if the target is the root
/// - the errno of a target that is not found, then of a source that is not found
/// - ENOTDIR if only one of source and target is a directory, or if the target of an empty file system is not one
/// - EINVAL if a bind that is not recursive would uncover what a locked mount covers
/// - ENAMETOOLONG if the place of a copy would be too long
/// - ENOSPC if the table would have too many entries
/// - `Memory` if memory runs out
pub fn mount(
    alloc: Global,
    table: &mut MountTable,
    site: &SiteTable,
    source: &AbsPath,
    target: &AbsPath,
    flags: u32,
) -> Result<(), MountError>
    ensures mounts_by_the_rule { BecomesOrMemory table.old table.new result
        (after_mount (row_at site.now.rows) table.old source.now target.now flags) }
    ensures remount_takes_no_memory { IsErrOf result MountError.Memory → has_all ms_remount_bind flags ≡ false }
{
    match planned(table, site, source, target, flags) {
        Ok(Change::Remount) => remount(table, target, flags),
        Ok(Change::Bind { recursive }) => table.bind(source, target, recursive),
        Ok(Change::Empty) => mount_empty(alloc, table, target, flags),
        Err(errno) => Err(MountError::Errno(errno)),
    }
}

/// umount2(2), of a process with CAP_SYS_ADMIN: removes the mount at the path. Takes no memory.
///
/// Returns EINVAL for any flag but MNT_DETACH, for the root, for a path that is not the place of its mount, and for a locked
/// mount. Then returns EBUSY if a later mount is below it, unless MNT_DETACH removes that too. On any error the table is
/// unchanged.
pub fn umount(table: &mut MountTable, path: &AbsPath, flags: u32) -> Result<(), u32>
    ensures unmounts_by_the_rule { Becomes table.old table.new result (umount_answer table.old path.now flags) }
{
    if flags != 0 && flags != MNT_DETACH {
        return Err(EINVAL);
    }
    table.umount(path, flags == MNT_DETACH)
}
