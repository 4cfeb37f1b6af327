//! Defines the payloads of calls: the data to which a call's arguments point, as far as a rule looks at it.

ghost use Rattle.std.specs.Prelude.{◌≡◌};
ghost use Rattle.call_table.specs.call_names.Known.{form_of};

use crate::call_names::rule::CallRule;

/// The data of a call beside its six words.
#[derive(Clone, Copy)]
pub enum PayloadForm {
    /// Nothing.
    Nothing,
    /// One path.
    OnePath,
    /// Two paths, source and target.
    TwoPaths,
    /// One path, and the flags by which it is opened.
    PathFlags,
    /// Three sets of capabilities: permitted, effective and inheritable.
    Sets,
    /// A list of ids.
    Ids,
    /// One number: the family of a socket, the first of the words to which socketcall(2) points; the policy of
    /// sched_setattr(2), or the flags of clone3(2).
    Number,
    /// The bytes of a program, seccomp(2).
    Program,
    /// A request to a ring, io_uring_enter(2).
    Request,
}

/// Returns the form of the payload of the calls of a rule.
pub fn form_of(rule: CallRule) -> PayloadForm
    ensures form_of_the_rule { result ≡ form_of rule }
{
    match rule {
        CallRule::See
        | CallRule::Open(_)
        | CallRule::OpenWith(_)
        | CallRule::Create
        | CallRule::CreateWith
        | CallRule::Truncate
        | CallRule::Execve
        | CallRule::Umount => PayloadForm::OnePath,
        CallRule::Mount => PayloadForm::TwoPaths,
        CallRule::Openat2 => PayloadForm::PathFlags,
        CallRule::Capset => PayloadForm::Sets,
        CallRule::Setgroups => PayloadForm::Ids,
        CallRule::Socketcall | CallRule::SetAttributes | CallRule::Clone3 => PayloadForm::Number,
        CallRule::Seccomp => PayloadForm::Program,
        CallRule::Submit => PayloadForm::Request,
        CallRule::SetMode(_)
        | CallRule::Map
        | CallRule::Protect
        | CallRule::Attach
        | CallRule::Schedule
        | CallRule::Personality
        | CallRule::Socket
        | CallRule::Socketpair
        | CallRule::Enter
        | CallRule::Fork
        | CallRule::Clone
        | CallRule::Unshare
        | CallRule::Exit
        | CallRule::Setuid
        | CallRule::Setgid
        | CallRule::Setresuid
        | CallRule::Setresgid
        | CallRule::Setreuid
        | CallRule::Setregid
        | CallRule::Prctl
        | CallRule::SetUpRing => PayloadForm::Nothing,
    }
}
