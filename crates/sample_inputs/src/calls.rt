//! The table of system calls of a sample.

ghost use Rattle.std.specs.Prelude.{◌≡◌, IfOk};
ghost use Rattle.launcher.specs.call_table.declared.causes.CallsError.TheVariants.{Memory};
ghost use Rattle.sample_inputs.specs.Calls.{calls_text};
ghost use Rattle.sample_inputs.specs.CallTable.{sample_table};

use launcher::{CallTable, CallsError, read_calls};
use std::alloc::{AllocError, Global};

/// The calls.txt of each sample: a small table of x86-64, with each call that a launch makes.
const CALLS: &str = "abi x86-64 c000003e
call read 0
call write 1
call open 2
call close 3
call stat 4
call mmap 9
call mprotect 10
call shmat 30
call getpid 39
call socket 41
call clone 56
call fork 57
call execve 59
call exit 60
call truncate 76
call chmod 90
call syslog 103 CAP_SYSLOG
call setuid 105
call setgroups 116
call setresuid 117
call setresgid 119
call capset 126
call personality 135
call sched_setscheduler 144
call prctl 157
call settimeofday 164 CAP_SYS_TIME
call mount 165
call umount2 166
call sethostname 170 CAP_SYS_ADMIN
call iopl 172 CAP_SYS_RAWIO
call init_module 175 CAP_SYS_MODULE
call exit_group 231
call openat 257
call unshare 272
call setns 308
call seccomp 317
group @default execve exit exit_group getpid
group @clock settimeofday
group @module init_module
group @raw-io iopl
group @mount mount umount2
group @system-service @default read write open close stat mmap mprotect socket clone fork openat setresuid
family AF_UNIX 1
family AF_INET 2
family AF_INET6 10
family AF_NETLINK 16
family AF_PACKET 17 CAP_NET_RAW
";

// A text that is a table is refused only if memory runs out.
fn of_memory(_error: CallsError) -> AllocError
    requires { _error ≡ Memory }
{
    AllocError
}

// The text of the table.
fn calls_text() -> &'static str
    ensures { result.now ≡ calls_text }
{
    CALLS
}

/// The table of system calls.
pub fn sample_calls(alloc: Global) -> Result<Box<CallTable>, AllocError>
    ensures table { IfOk result (λ calls. calls.value ≡ sample_table) }
{
    match read_calls(alloc, calls_text().as_bytes()) {
        Ok(calls) => Ok(Box::new(alloc, calls)?),
        Err(error) => Err(of_memory(error)),
    }
}
