//! Decides what a call of mount(2) does, or why it is refused before the table changes. Takes no memory.

ghost use Rattle.std.specs.Prelude.{◌≡◌, IfOk, true, Ok};
ghost use Rattle.site_table.specs.Table.{row_at};
ghost use Rattle.kern_mounts.specs.Mounts.{steps_of};
ghost use Rattle.kern_mounts.specs.Bind.{can_bind};
ghost use Rattle.kern_mounts.specs.Finds.{finds};
ghost use Rattle.kernel_model.specs.kern_files.Found.{shown};
ghost use Rattle.kernel_model.specs.kern_files.Bits.{has_all};
ghost use Rattle.kernel_model.specs.kern_files.MountCall.{ms_remount_bind, kind_found, hidden_kind, target_kind, mount_onto};
ghost use Rattle.kernel_model.specs.kern_files.MountCall.{after_mount};
ghost use Rattle.kernel_model.specs.kern_files.Planning.{Plans, CanPerform};

use crate::kern_files::find::{Found, entry_of, find};
use crate::kern_files::flags::{has_all, has_some};
use crate::kern_files::looks::is_dir;
use abs_path::AbsPath;
use kern_mounts::linux_numbers::errnos::{EBUSY, EINVAL, ENOTDIR};
use kern_mounts::{MountStep, MountTable, What};
use site_table::SiteTable;

// MS_REMOUNT, mount(2): changes the flags of a mount.
const MS_REMOUNT: u32 = 32;

// MS_BIND, mount(2): shows at the target what the source shows.
const MS_BIND: u32 = 4096;

// MS_REC, mount(2): includes the mounts below the source.
const MS_REC: u32 = 16384;

// MS_MOVE, MS_UNBINDABLE, MS_PRIVATE, MS_SLAVE and MS_SHARED, mount(2), which are not modelled.
const OTHER_KINDS: u32 = 0x1e_2000;

/// The change that a call of mount(2) makes at its target.
#[derive(Clone, Copy)]
pub enum Change {
    /// Changes the flags of the mount there.
    Remount,
    /// Shows there what the source shows.
    Bind {
        /// Includes the mounts below the source, MS_REC.
        recursive: bool,
    },
    /// Mounts an empty file system there.
    Empty,
}

// Whether the lookup found a directory, or the errno if it found nothing.
fn kind_found(found: Found) -> Result<bool, u32>
    ensures { result ≡ kind_found (shown found.entry) }
{
    match found {
        Found::Row(row) => Ok(is_dir(row.kind)),
        Found::EmptyDirectory => Ok(true),
        Found::Nothing(errno) => Err(errno),
    }
}

// Whether the hidden entry at this path is a directory; None for any other entry.
fn hidden_kind(entry: &MountStep, path: &AbsPath) -> Option<bool>
    ensures { result ≡ hidden_kind entry.now.place entry.now.what path.now }
{
    match &entry.what {
        What::Hidden { directory } if entry.place == *path => Some(*directory),
        _ => None,
    }
}

// Whether the target is a directory, or the errno if it is not found.
fn target_kind(table: &MountTable, site: &SiteTable, target: &AbsPath) -> Result<bool, u32>
    ensures { result ≡ target_kind (row_at site.now.rows) (steps_of table.now) target.now }
{
    match hidden_kind(entry_of(table, target), target) {
        Some(directory) => Ok(directory),
        None => kind_found(find(table, site, target)),
    }
}

// Whether the source is a directory, or the errno if it is not found. A source that is found can be bound.
fn source_kind(table: &MountTable, site: &SiteTable, source: &AbsPath) -> Result<bool, u32>
    ensures kind { result ≡ kind_found (finds (row_at site.now.rows) (steps_of table.now) source.now) }
    ensures can_bind { IfOk result (λ directory. can_bind (steps_of table.now) source.now ≡ true) }
{
    // Borrowing the rows shows what every site guarantees: the paths of its rows are short.
    let _rows = site.rows();
    kind_found(find(table, site, source))
}

// Decides what a call with these flags does at a target that exists. `directory` says whether the target is a directory.
fn planned_onto(
    table: &MountTable,
    site: &SiteTable,
    source: &AbsPath,
    target: &AbsPath,
    flags: u32,
    directory: bool,
) -> Result<Change, u32>
    ensures by_the_rule { Plans table.now source.now target.now flags
        (mount_onto (row_at site.now.rows) table.now source.now target.now flags (Ok directory)) result }
    ensures can_perform { IfOk result (λ change. CanPerform (steps_of table.now) source.now change) }
{
    if has_some(MS_BIND, flags) {
        let own = source_kind(table, site, source)?;
        if own != directory {
            return Err(ENOTDIR);
        }
        return Ok(Change::Bind {
            recursive: has_some(MS_REC, flags),
        });
    }
    if !directory {
        return Err(ENOTDIR);
    }
    Ok(Change::Empty)
}

/// Decides what a call with these flags does. Errors, in this order:
///
/// - EINVAL for a kind of mount that is not modelled, and for MS_REMOUNT without MS_BIND
/// - EBUSY if the target is the root
/// - the errno of a target that is not found, then of a source that is not found
/// - ENOTDIR if only one of source and target is a directory, or if the target of an empty file system is not one
///
/// A remount has none of the errors after the first line.
pub fn planned(
    table: &MountTable,
    site: &SiteTable,
    source: &AbsPath,
    target: &AbsPath,
    flags: u32,
) -> Result<Change, u32>
    ensures by_the_rule { Plans table.now source.now target.now flags
        (after_mount (row_at site.now.rows) table.now source.now target.now flags) result }
    ensures can_perform { IfOk result (λ change. CanPerform (steps_of table.now) source.now change) }
    ensures remounts { has_all ms_remount_bind flags ≡ true → IfOk result (λ change. change ≡ Change.Remount) }
{
    if has_some(OTHER_KINDS, flags) {
        return Err(EINVAL);
    }
    if has_all(MS_REMOUNT | MS_BIND, flags) {
        return Ok(Change::Remount);
    }
    if has_some(MS_REMOUNT, flags) {
        return Err(EINVAL);
    }
    if target.is_root() {
        return Err(EBUSY);
    }
    let directory = target_kind(table, site, target)?;
    planned_onto(table, site, source, target, flags, directory)
}
