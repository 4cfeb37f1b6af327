//! execve(2): finds the program at a path, and which of its marks count. Takes no memory.

ghost use Rattle.std.specs.Prelude.{◌≡◌};
ghost use Rattle.site_table.specs.Kinds.{is_exe};
ghost use Rattle.site_table.specs.Table.{row_at};
ghost use Rattle.kern_mounts.specs.Finds.{finds};
ghost use Rattle.kern_mounts.specs.Mounts.{steps_of};
ghost use Rattle.kernel_model.specs.kern_files.Looking.{flags_at};
ghost use Rattle.kernel_model.specs.kern_files.Executing.{marks_of, program_answer};

use crate::kern_files::find::{Found, find};
use crate::kern_files::flags::flags_at;
use abs_path::AbsPath;
use kern_creds::FileCreds;
use kern_mounts::MountTable;
use kern_mounts::linux_numbers::errnos::EACCES;
use site_table::{Row, RowKind, SiteTable};

/// A program that execve(2) may execute, and what execve(2) reads of it.
#[derive(Clone, Copy)]
pub struct Program {
    /// The set-id bits and the capabilities of the file.
    pub file: FileCreds,
    /// Whether its mount is nosuid.
    pub no_suid: bool,
}

fn is_exe(kind: RowKind) -> bool
    ensures { result ≡ is_exe kind }
{
    matches!(kind, RowKind::Exe)
}

fn marks_of(row: &Row) -> FileCreds
    ensures { result ≡ marks_of row.now }
{
    FileCreds {
        setuid: row.setuid,
        setgid: row.setgid,
        caps: row.caps,
        effective: row.effective,
    }
}

/// Returns the program at a path, for execve(2).
///
/// Returns ENOENT if there is nothing at the path. Returns EACCES if a mount hides the path, if it is not an executable file,
/// or if its mount is noexec.
pub fn program_at(table: &MountTable, site: &SiteTable, path: &AbsPath) -> Result<Program, u32>
    ensures program_that_may_be_executed { result
        ≡ program_answer (flags_at (steps_of table.now) path.now) (finds (row_at site.now.rows) (steps_of table.now) path.now) }
{
    let row = match find(table, site, path) {
        Found::Row(row) => row,
        Found::EmptyDirectory => return Err(EACCES),
        Found::Nothing(errno) => return Err(errno),
    };
    let flags = flags_at(table, path);
    if !is_exe(row.kind) || flags.no_exec {
        return Err(EACCES);
    }
    Ok(Program {
        file: marks_of(row),
        no_suid: flags.no_suid,
    })
}
