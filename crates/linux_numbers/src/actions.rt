//! Actions of filters, as the 32-bit words that a program returns (seccomp(2), <linux/seccomp.h>).

/// SECCOMP_RET_KILL_PROCESS: the kernel ends the process.
pub const KILL_PROCESS: u32 = 0x8000_0000;

/// SECCOMP_RET_KILL_THREAD: the kernel ends the thread.
pub const KILL_THREAD: u32 = 0;

/// SECCOMP_RET_TRAP: the thread gets SIGSYS.
pub const TRAP: u32 = 0x0003_0000;

/// SECCOMP_RET_ERRNO: the call fails with the data as its error number.
pub const ERRNO: u32 = 0x0005_0000;

/// SECCOMP_RET_USER_NOTIF: the kernel asks a supervisor.
pub const USER_NOTIF: u32 = 0x7fc0_0000;

/// SECCOMP_RET_TRACE: the kernel asks a tracer.
pub const TRACE: u32 = 0x7ff0_0000;

/// SECCOMP_RET_LOG: the kernel logs the call and makes it.
pub const LOG: u32 = 0x7ffc_0000;

/// SECCOMP_RET_ALLOW: the kernel makes the call.
pub const ALLOW: u32 = 0x7fff_0000;

/// SECCOMP_RET_ACTION_FULL: the bits of an answer that are its action.
pub const ACTION_FULL: u32 = 0xffff_0000;

/// SECCOMP_RET_DATA: the bits of an answer that are its data.
pub const DATA: u32 = 0xffff;
