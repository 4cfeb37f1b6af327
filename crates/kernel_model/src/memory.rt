//! Memory that is to be executed: mmap(2), mprotect(2), pkey_mprotect(2) and shmat(2).
//!
//! PR_SET_MDWE of prctl(2) refuses a process memory that it can both write and execute.

ghost use Rattle.kernel_model.specs.Effects.{attach_effect, protect_effect};
ghost use Rattle.kernel_model.specs.Replies.{Answers};

use crate::reply::Reply;
use kern_creds::Creds;
use kern_mounts::linux_numbers::errnos::EACCES;

// PROT_WRITE and PROT_EXEC, mmap(2).
const WRITE_AND_EXEC: u32 = 6;

// SHM_EXEC, shmat(2).
const SHM_EXEC: u32 = 0x8000;

// SHM_RDONLY, shmat(2).
const SHM_RDONLY: u32 = 0x1000;

/// mmap(2), mprotect(2) and pkey_mprotect(2). Returns EACCES for memory to be both written and executed, if the process is refused it.
pub(crate) fn protect(creds: &Creds, protection: u32) -> Reply
    ensures { Answers result (protect_effect creds.now protection) }
{
    if protection & WRITE_AND_EXEC == WRITE_AND_EXEC && creds.mdwe() {
        Reply::Refused(EACCES)
    } else {
        Reply::Done(0)
    }
}

/// shmat(2). Returns EACCES for memory to be executed and not only read, if the process is refused it.
pub(crate) fn attach(creds: &Creds, flags: u32) -> Reply
    ensures { Answers result (attach_effect creds.now flags) }
{
    let writes = flags & SHM_RDONLY != SHM_RDONLY;
    if flags & SHM_EXEC == SHM_EXEC && writes && creds.mdwe() {
        Reply::Refused(EACCES)
    } else {
        Reply::Done(0)
    }
}
