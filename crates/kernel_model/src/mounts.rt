//! mount(2) and umount2(2). Both check first that the caller's mount namespace belongs to its user namespace and that the
//! caller has CAP_SYS_ADMIN.

ghost use Rattle.std.specs.Prelude.{◌≡◌, true, IfOk, IsOk, OnErr};
ghost use Rattle.site_table.specs.Table.{row_at};
ghost use Rattle.kernel_model.specs.kern_files.Bits.{has_all};
ghost use Rattle.kernel_model.specs.Effects.{table_effect, with_admin, with_own};
ghost use Rattle.kernel_model.specs.kern_files.MountCall.{ms_remount_bind, after_mount};
ghost use Rattle.kernel_model.specs.kern_files.UmountCall.{umount_answer};
ghost use Rattle.kernel_model.specs.Replies.{Mounts};

use crate::reply::{Reply, zero_reply};
use crate::told::Told;
use abs_path::AbsPath;
use kern_creds::Creds;
use kern_mounts::linux_numbers::capabilities::CAP_SYS_ADMIN;
use kern_mounts::linux_numbers::errnos::EPERM;
use kern_mounts::{MountError, MountTable};
use std::alloc::{AllocError, Global};

impl<'a> Told<'a> {
    /// mount(2) of two paths.
    pub fn mount(
        &self,
        alloc: Global,
        creds: &Creds,
        owns: bool,
        table: &mut MountTable,
        source: &AbsPath,
        target: &AbsPath,
        flags: u32,
    ) -> Result<Reply, AllocError>
        ensures mounts { IfOk result (λ reply. Mounts table.old reply table.new (with_own owns (with_admin creds.now (table_effect (after_mount (row_at self.now.site.now.rows) table.old source.now target.now flags))))) }
        ensures remount_takes_no_memory { has_all ms_remount_bind flags ≡ true → IsOk result }
        ensures stays { OnErr result (table.new ≡ table.old) }
    {
        if !owns || !creds.effective().contains(CAP_SYS_ADMIN) {
            return Ok(Reply::Refused(EPERM));
        }
        match crate::kern_files::mount(alloc, table, self.site, source, target, flags) {
            Ok(()) => return Ok(Reply::Done(0)),
            Err(MountError::Errno(errno)) => return Ok(Reply::Refused(errno)),
            Err(MountError::Memory) => return Err(AllocError),
        }
    }
}

/// umount2(2).
pub(crate) fn umount(
    creds: &Creds,
    owns: bool,
    table: &mut MountTable,
    path: &AbsPath,
    flags: u32,
) -> Reply
    ensures { Mounts table.old result table.new (with_own owns (with_admin creds.now (table_effect (umount_answer table.old path.now flags)))) }
{
    if !owns || !creds.effective().contains(CAP_SYS_ADMIN) {
        return Reply::Refused(EPERM);
    }
    zero_reply(crate::kern_files::umount(table, path, flags))
}
