//! What a call asks for: its rule, and the words and payload that the rule uses.

ghost use Rattle.std.specs.Prelude.{◌≡◌};
ghost use Rattle.std.specs.Option.{option_map};
ghost use Rattle.kernel_model.specs.declared.kernel_calls.payload.Payload.TheVariants.{Nothing, OnePath};
ghost use Rattle.kernel_model.specs.kernel_calls.Operation.{known_operation, operation_by, bare, Plain};
ghost use Rattle.kernel_model.specs.kernel_calls.Seen.{seen};

use crate::kernel_calls::call::Call;
use crate::kernel_calls::payload::Payload;
use crate::kernel_calls::request::Request;
use crate::kernel_calls::rule::Rule;
use crate::kernel_calls::words::low_word;
use abs_path::AbsPath;
use call_table::call_names::CallRule;
use kern_mounts::linux_numbers::limits::NO_ID;
use site_table::CapSet;

/// What a call asks for, with the words and the payload that its rule uses.
#[derive(Clone, Copy)]
pub enum Operation<'a> {
    /// stat(2), access(2) and similar calls, which look a path up.
    See(&'a AbsPath),
    /// open(2) and openat(2), with the flags and the mode. The base kernel does not look at the mode: it is 0.
    Open(u32, u32, &'a AbsPath),
    /// creat(2), with the mode. The base kernel does not look at it: it is 0.
    Create(u32, &'a AbsPath),
    /// truncate(2).
    Truncate(&'a AbsPath),
    /// execve(2) and execveat(2).
    Execve(&'a AbsPath),
    /// chmod(2), mkdir(2), mknod(2) and similar calls, with the mode.
    SetMode(u32),
    /// mmap(2), with the protection.
    Map(u32),
    /// mprotect(2) and pkey_mprotect(2), with the protection.
    Protect(u32),
    /// shmat(2), with the flags.
    Attach(u32),
    /// sched_setscheduler(2), with the policy.
    Schedule(u32),
    /// sched_setattr(2), with the policy.
    SetAttributes(u32),
    /// personality(2), with the persona.
    Personality(u32),
    /// socket(2), with the address family.
    Socket(u32),
    /// socketcall(2), with the operation and the address family that it points to.
    Socketcall(u32, u32),
    /// socketpair(2), with the address family.
    Socketpair(u32),
    /// setns(2).
    Enter,
    /// fork(2) and vfork(2).
    Fork,
    /// clone(2) and clone3(2), with the flags.
    Clone(u32),
    /// unshare(2), with the flags.
    Unshare(u32),
    /// exit(2) and exit_group(2).
    Exit,
    /// mount(2), with source, target and flags.
    Mount(&'a AbsPath, &'a AbsPath, u32),
    /// umount2(2), with target and flags.
    Umount(&'a AbsPath, u32),
    /// setuid(2), with the uid.
    Setuid(u32),
    /// setgid(2), with the gid.
    Setgid(u32),
    /// setresuid(2), with the real, the effective and the saved uid. setreuid(2) leaves the saved one.
    Setresuid(u32, u32, u32),
    /// setresgid(2), with the real, the effective and the saved gid. setregid(2) leaves the saved one.
    Setresgid(u32, u32, u32),
    /// setgroups(2), with the gids.
    Setgroups(&'a [u32]),
    /// capset(2), with the permitted, the effective and the inheritable set.
    Capset(CapSet, CapSet, CapSet),
    /// prctl(2), with the operation and its four arguments.
    Prctl(u32, u32, u32, u32, u32),
    /// seccomp(2), with the operation, the flags and the bytes of the program.
    Seccomp(u32, u32, &'a [u8]),
    /// io_uring_setup(2).
    SetUpRing,
    /// io_uring_enter(2), with the request.
    Submit(&'a Request),
    /// Any other call, with the capability that its line in the table names.
    Plain(Option<u8>),
}

// What a call without a payload asks for.
fn bare_operation<'a>(rule: CallRule, args: &[u64; 6]) -> Option<Operation<'a>>
    ensures { option_map seen result ≡ known_operation rule args.now Nothing }
{
    let first = low_word(args, 0);
    let second = low_word(args, 1);
    let third = low_word(args, 2);
    let operation = match rule {
        CallRule::SetMode(mode) => Operation::SetMode(low_word(args, mode.place())),
        CallRule::Map => Operation::Map(third),
        CallRule::Protect => Operation::Protect(third),
        CallRule::Attach => Operation::Attach(third),
        CallRule::Schedule => Operation::Schedule(second),
        CallRule::Personality => Operation::Personality(first),
        CallRule::Socket => Operation::Socket(first),
        CallRule::Socketpair => Operation::Socketpair(first),
        CallRule::Enter => Operation::Enter,
        CallRule::Fork => Operation::Fork,
        CallRule::Clone => Operation::Clone(first),
        CallRule::Unshare => Operation::Unshare(first),
        CallRule::Exit => Operation::Exit,
        CallRule::SetUpRing => Operation::SetUpRing,
        CallRule::Setuid => Operation::Setuid(first),
        CallRule::Setgid => Operation::Setgid(first),
        CallRule::Setresuid => Operation::Setresuid(first, second, third),
        CallRule::Setresgid => Operation::Setresgid(first, second, third),
        CallRule::Setreuid => Operation::Setresuid(first, second, NO_ID),
        CallRule::Setregid => Operation::Setresgid(first, second, NO_ID),
        CallRule::Prctl => {
            Operation::Prctl(first, second, third, low_word(args, 3), low_word(args, 4))
        }
        _ => return None,
    };
    Some(operation)
}

// What a call with one path asks for.
fn path_operation<'a>(rule: CallRule, args: &[u64; 6], path: &'a AbsPath) -> Option<Operation<'a>>
    ensures { option_map seen result ≡ known_operation rule args.now (OnePath path.now) }
{
    let operation = match rule {
        CallRule::See => Operation::See(path),
        CallRule::Open(flags) => Operation::Open(low_word(args, flags.place()), 0, path),
        CallRule::OpenWith(flags) => {
            let mode = low_word(args, flags.mode_place());
            Operation::Open(low_word(args, flags.place()), mode, path)
        }
        CallRule::Create => Operation::Create(0, path),
        CallRule::CreateWith => Operation::Create(low_word(args, 1), path),
        CallRule::Truncate => Operation::Truncate(path),
        CallRule::Execve => Operation::Execve(path),
        CallRule::Umount => Operation::Umount(path, low_word(args, 1)),
        _ => return None,
    };
    Some(operation)
}

// What a call of a known rule asks for.
fn known_operation<'a>(
    rule: CallRule,
    args: &[u64; 6],
    payload: &'a Payload,
) -> Option<Operation<'a>>
    ensures { option_map seen result ≡ known_operation rule args.now payload.now }
{
    match payload {
        Payload::Nothing => bare_operation(rule, args),
        Payload::OnePath(path) => path_operation(rule, args, path),
        Payload::TwoPaths(source, target) => match rule {
            CallRule::Mount => Some(Operation::Mount(source, target, low_word(args, 3))),
            _ => None,
        },
        Payload::PathFlags(path, flags) => match rule {
            CallRule::Openat2 => Some(Operation::Open(*flags, 0, path)),
            _ => None,
        },
        Payload::Sets(permitted, effective, inheritable) => match rule {
            CallRule::Capset => Some(Operation::Capset(*permitted, *effective, *inheritable)),
            _ => None,
        },
        Payload::Ids(list) => match rule {
            CallRule::Setgroups => Some(Operation::Setgroups(list.list())),
            _ => None,
        },
        Payload::Number(number) => match rule {
            CallRule::Socketcall => Some(Operation::Socketcall(low_word(args, 0), *number)),
            CallRule::SetAttributes => Some(Operation::SetAttributes(*number)),
            CallRule::Clone3 => Some(Operation::Clone(*number)),
            _ => None,
        },
        Payload::Code(code) => match rule {
            CallRule::Seccomp => {
                Some(Operation::Seccomp(low_word(args, 0), low_word(args, 1), code.list()))
            }
            _ => None,
        },
        Payload::Ring(request) => match rule {
            CallRule::Submit => Some(Operation::Submit(request)),
            _ => None,
        },
    }
}

// What a plain call asks for. Its payload must be empty.
fn plain_operation<'a>(cap: Option<u8>, payload: &Payload) -> Option<Operation<'a>>
    ensures { option_map seen result ≡ bare (Plain cap) payload.now }
{
    match payload {
        Payload::Nothing => Some(Operation::Plain(cap)),
        _ => None,
    }
}

/// Returns what a call of this rule asks for, or None if its payload does not have the rule's form. Takes no memory.
pub fn operation_of(rule: Rule, call: &Call) -> Option<Operation<'_>>
    ensures by_rule_words_and_payload { option_map seen result ≡ operation_by rule call.now.args call.now.payload }
{
    match rule {
        Rule::Known(known) => known_operation(known, &call.args, &call.payload),
        Rule::Plain(cap) => plain_operation(cap, &call.payload),
    }
}
