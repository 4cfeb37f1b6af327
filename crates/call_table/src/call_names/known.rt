//! Defines the tables of known calls, by their names.

ghost use Rattle.std.specs.Prelude.{◌≡◌, map, find, option_copied};
ghost use Rattle.std.specs.Map.{lookup};
ghost use Rattle.std.specs.Str.{bytes_eq};
ghost use Rattle.call_table.specs.call_names.Known.{known_calls, linux_calls, entry_in, known_call, is_known};

use crate::call_names::kernel::Kernel;
use crate::call_names::rule::Argument::{Second, Third};
use crate::call_names::rule::CallRule;
use KnownCall::{Absent, Modelled};

/// The kernel's treatment of a call that it knows by name.
#[derive(Clone, Copy)]
pub enum KnownCall {
    /// The kernel has a rule of its own for the call.
    Modelled(CallRule),
    /// The kernel lacks the call, which fails with ENOSYS.
    Absent,
}

/// The calls that the base kernel knows, by their names in syscalls(2).
const KNOWN_CALLS: &[(&str, KnownCall)] = &[
    ("stat", Modelled(CallRule::See)),
    ("lstat", Modelled(CallRule::See)),
    ("newfstatat", Modelled(CallRule::See)),
    ("statx", Modelled(CallRule::See)),
    ("access", Modelled(CallRule::See)),
    ("faccessat", Modelled(CallRule::See)),
    ("faccessat2", Modelled(CallRule::See)),
    ("open", Modelled(CallRule::Open(Second))),
    ("openat", Modelled(CallRule::Open(Third))),
    ("openat2", Absent),
    ("creat", Modelled(CallRule::Create)),
    ("truncate", Modelled(CallRule::Truncate)),
    ("execve", Modelled(CallRule::Execve)),
    ("execveat", Absent),
    ("chmod", Modelled(CallRule::SetMode(Second))),
    ("fchmod", Modelled(CallRule::SetMode(Second))),
    ("mkdir", Modelled(CallRule::SetMode(Second))),
    ("mknod", Modelled(CallRule::SetMode(Second))),
    ("fchmodat", Modelled(CallRule::SetMode(Third))),
    ("fchmodat2", Absent),
    ("mkdirat", Modelled(CallRule::SetMode(Third))),
    ("mknodat", Modelled(CallRule::SetMode(Third))),
    ("mmap", Modelled(CallRule::Map)),
    ("mprotect", Modelled(CallRule::Protect)),
    ("pkey_mprotect", Modelled(CallRule::Protect)),
    ("shmat", Modelled(CallRule::Attach)),
    ("sched_setscheduler", Modelled(CallRule::Schedule)),
    ("sched_setattr", Absent),
    ("personality", Modelled(CallRule::Personality)),
    ("socket", Modelled(CallRule::Socket)),
    ("socketcall", Modelled(CallRule::Socketcall)),
    ("setns", Modelled(CallRule::Enter)),
    ("chroot", Absent),
    ("pivot_root", Absent),
    ("fork", Modelled(CallRule::Fork)),
    ("vfork", Modelled(CallRule::Fork)),
    ("clone", Modelled(CallRule::Clone)),
    ("clone3", Absent),
    ("unshare", Modelled(CallRule::Unshare)),
    ("exit", Modelled(CallRule::Exit)),
    ("exit_group", Modelled(CallRule::Exit)),
    ("mount", Modelled(CallRule::Mount)),
    ("umount2", Modelled(CallRule::Umount)),
    ("fsopen", Absent),
    ("fsconfig", Absent),
    ("fsmount", Absent),
    ("fspick", Absent),
    ("open_tree", Absent),
    ("move_mount", Absent),
    ("mount_setattr", Absent),
    ("setuid", Modelled(CallRule::Setuid)),
    ("setgid", Modelled(CallRule::Setgid)),
    ("setreuid", Absent),
    ("setregid", Absent),
    ("setresuid", Modelled(CallRule::Setresuid)),
    ("setresgid", Modelled(CallRule::Setresgid)),
    ("setfsuid", Absent),
    ("setfsgid", Absent),
    ("setgroups", Modelled(CallRule::Setgroups)),
    ("capset", Modelled(CallRule::Capset)),
    ("prctl", Modelled(CallRule::Prctl)),
    ("seccomp", Modelled(CallRule::Seccomp)),
];

/// The calls that Linux has a rule for in place of what the base kernel has.
const LINUX_CALLS: &[(&str, KnownCall)] = &[
    ("open", Modelled(CallRule::OpenWith(Second))),
    ("openat", Modelled(CallRule::OpenWith(Third))),
    ("openat2", Modelled(CallRule::Openat2)),
    ("creat", Modelled(CallRule::CreateWith)),
    ("execveat", Modelled(CallRule::Execve)),
    ("clone3", Modelled(CallRule::Clone3)),
    ("fchmodat2", Modelled(CallRule::SetMode(Third))),
    ("sched_setattr", Modelled(CallRule::SetAttributes)),
    ("socketpair", Modelled(CallRule::Socketpair)),
    ("setreuid", Modelled(CallRule::Setreuid)),
    ("setregid", Modelled(CallRule::Setregid)),
    ("io_uring_setup", Modelled(CallRule::SetUpRing)),
    ("io_uring_enter", Modelled(CallRule::Submit)),
];

fn known_calls() -> &'static [(&'static str, KnownCall)]
    ensures { map (λ row. (row.0.now, row.1)) result.now ≡ known_calls }
{
    KNOWN_CALLS
}

fn linux_calls() -> &'static [(&'static str, KnownCall)]
    ensures { map (λ row. (row.0.now, row.1)) result.now ≡ linux_calls }
{
    LINUX_CALLS
}

fn line_named<'a>(lines: &'a [(&'a str, KnownCall)], name: &str) -> Option<&'a (&'a str, KnownCall)>
    ensures { option_copied result ≡ find (λ line. bytes_eq name.now line.0.now) lines.now }
{
    lines.iter().find(|line| name == line.0)
}

// Returns the entry of a name among these lines.
fn entry_of(lines: &[(&str, KnownCall)], name: &str) -> Option<KnownCall>
    ensures { result ≡ lookup (bytes_eq name.now) (map (λ row. (row.0.now, row.1)) lines.now) }
{
    let line = line_named(lines, name)?;
    Some(line.1)
}

// Returns the entry of a name in a kernel, given the entry that Linux has in place of the base kernel's.
fn entry_in(own: Option<KnownCall>, kernel: Kernel, base: Option<KnownCall>) -> Option<KnownCall>
    ensures { result ≡ entry_in own kernel base }
{
    match (own, kernel) {
        (Some(own), Kernel::Linux) => Some(own),
        _ => base,
    }
}

/// Returns this kernel's treatment of the call of this name, or None if the kernel does not know the name.
#[tactic(auto, unfolding(crate::specs::call_names::Known::known_call))]
pub fn known_call(kernel: Kernel, name: &str) -> Option<KnownCall>
    ensures by_the_table { result ≡ known_call kernel name.now }
{
    entry_in(
        entry_of(linux_calls(), name),
        kernel,
        entry_of(known_calls(), name),
    )
}

/// Returns whether this kernel knows the name: it has a rule of its own for the call, or lacks it. Every other call is
/// plain.
pub fn is_known(kernel: Kernel, name: &str) -> bool
    ensures in_the_table { result ≡ is_known kernel name.now }
{
    known_call(kernel, name).is_some()
}
