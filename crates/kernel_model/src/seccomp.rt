//! seccomp(2): a process installs a filter program on top of its others.

ghost use Rattle.std.specs.Prelude.{◌≡◌, IfOk, OnErr};
ghost use Rattle.bpf_code.specs.ProgramOf.{program_of};
ghost use Rattle.kernel_model.specs.Effects.{push_effect, seccomp_effect};
ghost use Rattle.kernel_model.specs.Replies.{Pushes};

use crate::reply::Reply;
use bpf_code::{Program, ProgramError, PushError, Stack};
use kern_creds::Creds;
use kern_mounts::linux_numbers::capabilities::CAP_SYS_ADMIN;
use kern_mounts::linux_numbers::errnos::{EACCES, EINVAL, ENOMEM};
use std::alloc::{AllocError, Global};

// The operation that installs a program.
const SECCOMP_SET_MODE_FILTER: u32 = 1;

// Installs the program with these bytes on top of the others.
fn install(alloc: Global, stack: &mut Stack, bytes: &[u8]) -> Result<Reply, AllocError>
    ensures installs { IfOk result (λ reply. Pushes stack.old reply stack.new (push_effect stack.old (program_of bytes.now))) }
    ensures stays { OnErr result (stack.new ≡ stack.old) }
{
    let program = match Program::read(alloc, bytes) {
        Ok(program) => program,
        Err(ProgramError::Memory) => return Err(AllocError),
        Err(_) => return Ok(Reply::Refused(EINVAL)),
    };
    match stack.push(program) {
        Ok(()) => return Ok(Reply::Done(0)),
        Err(PushError::TooLong) => return Ok(Reply::Refused(ENOMEM)),
        Err(PushError::Memory) => return Err(AllocError),
    }
}

/// seccomp(2). Returns, in this order:
///
/// - EINVAL for another operation or any flag
/// - EACCES if the caller has neither no_new_privs nor CAP_SYS_ADMIN
/// - EINVAL if the bytes are no program
/// - ENOMEM if the programs would be too long together
pub(crate) fn seccomp(
    alloc: Global,
    creds: &Creds,
    stack: &mut Stack,
    op: u32,
    flags: u32,
    bytes: &[u8],
) -> Result<Reply, AllocError>
    ensures pushes { IfOk result (λ reply. Pushes stack.old reply stack.new (seccomp_effect creds.now stack.old op flags bytes.now)) }
    ensures stays { OnErr result (stack.new ≡ stack.old) }
{
    if op != SECCOMP_SET_MODE_FILTER || flags != 0 {
        return Ok(Reply::Refused(EINVAL));
    }
    if !creds.no_new_privs() && !creds.effective().contains(CAP_SYS_ADMIN) {
        return Ok(Reply::Refused(EACCES));
    }
    install(alloc, stack, bytes)
}
