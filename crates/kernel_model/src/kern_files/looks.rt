//! Calls that look at a path: stat(2) and similar calls, open(2), creat(2), truncate(2). None of them takes memory.

ghost use Rattle.std.specs.Prelude.{◌≡◌, ℕ};
ghost use Rattle.site_table.specs.Kinds.{is_dir};
ghost use Rattle.site_table.specs.Table.{row_at};
ghost use Rattle.kern_mounts.specs.Mounts.{steps_of};
ghost use Rattle.kern_mounts.specs.Finds.{finds};
ghost use Rattle.kernel_model.specs.kern_files.Looking.{flags_at, is_kept, valued, see_answer, write_answer, open_answer};

use crate::kern_files::find::{Found, find};
use crate::kern_files::flags::flags_at;
use abs_path::AbsPath;
use kern_mounts::linux_numbers::errnos::{EINVAL, EISDIR, EROFS};
use kern_mounts::{Flags, MountTable};
use site_table::{Row, RowKind, SiteTable};

// O_ACCMODE, open(2): the bits of the access mode.
const O_ACCMODE: u32 = 3;

// O_RDONLY, open(2).
const O_RDONLY: u32 = 0;

// O_WRONLY and O_RDWR together, which is not a valid mode.
const NO_MODE: u32 = 3;

// The first descriptor after the three standard ones.
const DESCRIPTOR: u64 = 3;

/// Whether a row is a directory.
pub(crate) fn is_dir(kind: RowKind) -> bool
    ensures { result ≡ is_dir kind }
{
    matches!(kind, RowKind::Dir)
}

// Whether a read-only mount keeps the row from being written: it does not keep devices.
fn is_kept(flags: Flags, row: &Row) -> bool
    ensures { result ≡ is_kept flags row.now }
{
    flags.read_only && !matches!(row.kind, RowKind::Dev)
}

/// stat(2), access(2) and similar calls, and open(2) for reading.
///
/// Returns ENOENT if there is nothing at the path, and EACCES if a mount hides it.
pub fn see(table: &MountTable, site: &SiteTable, path: &AbsPath) -> Result<(), u32>
    ensures sees_what_is_found { (value : ℕ) → valued value result
        ≡ see_answer value (finds (row_at site.now.rows) (steps_of table.now) path.now) }
{
    match find(table, site, path) {
        Found::Nothing(errno) => Err(errno),
        _ => Ok(()),
    }
}

/// open(2) for writing, creat(2) and truncate(2).
///
/// Returns ENOENT if there is nothing at the path, and EACCES if a mount hides it. Then returns EISDIR for a directory, and
/// EROFS if the mount is read-only, unless a device is there.
pub fn write_file(table: &MountTable, site: &SiteTable, path: &AbsPath) -> Result<(), u32>
    ensures writes_what_may_be_written { (value : ℕ) → valued value result
        ≡ write_answer value (flags_at (steps_of table.now) path.now) (finds (row_at site.now.rows) (steps_of table.now) path.now) }
{
    match find(table, site, path) {
        Found::Row(row) if is_dir(row.kind) => Err(EISDIR),
        Found::Row(row) if is_kept(flags_at(table, path), row) => Err(EROFS),
        Found::Row(_) => Ok(()),
        Found::EmptyDirectory => Err(EISDIR),
        Found::Nothing(errno) => Err(errno),
    }
}

/// open(2). Returns the descriptor, which is 3.
///
/// Returns EINVAL if the access mode is not valid. Otherwise the errors are as of `write_file` for O_WRONLY and O_RDWR, and as
/// of `see` for O_RDONLY.
pub fn open_file(
    table: &MountTable,
    site: &SiteTable,
    path: &AbsPath,
    flags: u32,
) -> Result<u64, u32>
    ensures opens_for_its_mode { result
        ≡ open_answer flags (flags_at (steps_of table.now) path.now) (finds (row_at site.now.rows) (steps_of table.now) path.now) }
{
    match flags & O_ACCMODE {
        NO_MODE => return Err(EINVAL),
        O_RDONLY => see(table, site, path)?,
        _ => write_file(table, site, path)?,
    }
    Ok(DESCRIPTOR)
}
