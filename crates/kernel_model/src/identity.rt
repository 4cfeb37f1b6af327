//! execve(2) and setgroups(2). `kern_creds` has the other calls that change credentials, except prctl(2).

ghost use Rattle.std.specs.Prelude.{◌≡◌, IfOk, OnErr};
ghost use Rattle.site_table.specs.Table.{row_at};
ghost use Rattle.kern_creds.specs.Answer.{Becomes};
ghost use Rattle.kern_creds.specs.Setgroups.{after_setgroups};
ghost use Rattle.kern_mounts.specs.Finds.{finds};
ghost use Rattle.kernel_model.specs.kern_files.Executing.{exec_answer_in};
ghost use Rattle.kern_mounts.specs.Mounts.{steps_of};
ghost use Rattle.kernel_model.specs.kern_files.Looking.{flags_at};
ghost use Rattle.kernel_model.specs.Effects.{creds_effect, with_groups};
ghost use Rattle.kernel_model.specs.Replies.{Changes};

use crate::kern_files::program_at;
use crate::reply::Reply;
use crate::told::Told;
use abs_path::AbsPath;
use kern_creds::{CredError, Creds};
use kern_mounts::MountTable;
use kern_mounts::linux_numbers::errnos::EPERM;
use std::alloc::AllocError;

impl<'a> Told<'a> {
    /// execve(2): looks the program up on the table and changes the credentials by its marks.
    pub fn execute(
        &self,
        creds: &mut Creds,
        newer: bool,
        table: &MountTable,
        path: &AbsPath,
    ) -> Result<(), u32>
        ensures by_the_file { Becomes creds.old creds.new result (exec_answer_in newer creds.old (flags_at (steps_of table.now) path.now) (finds (row_at self.now.site.now.rows) (steps_of table.now) path.now)) }
    {
        let program = program_at(table, self.site, path)?;
        creds.exec(&program.file, program.no_suid, newer)
    }
}

/// setgroups(2).
pub(crate) fn setgroups(creds: &mut Creds, newer: bool, ids: &[u32]) -> Result<Reply, AllocError>
    ensures changes { IfOk result (λ reply. Changes creds.old reply creds.new (with_groups newer (creds_effect (after_setgroups creds.old ids.now)))) }
    ensures stays { OnErr result (creds.new ≡ creds.old) }
{
    if newer {
        return Ok(Reply::Refused(EPERM));
    }
    match creds.setgroups(ids) {
        Ok(()) => return Ok(Reply::Done(0)),
        Err(CredError::Errno(errno)) => return Ok(Reply::Refused(errno)),
        Err(CredError::Memory) => return Err(AllocError),
    }
}
