//! The result of a call for its caller.

ghost use Rattle.std.specs.Prelude.{◌≡◌};
ghost use Rattle.kernel_model.specs.Replies.{value_reply, zero_reply};

/// The result of a call.
#[derive(Clone, Copy, Debug, PartialEq, Eq)]
pub enum Reply {
    /// The call succeeds and returns this value.
    Done(u64),
    /// The call fails with this errno, errno(3).
    Refused(u32),
    /// The caller's filter programs kill the caller, seccomp(2).
    Killed,
}

/// Makes the reply of a rule that returns a value or an errno.
pub(crate) fn value_reply(answer: Result<u64, u32>) -> Reply
    ensures { result ≡ value_reply answer }
{
    match answer {
        Ok(value) => Reply::Done(value),
        Err(errno) => Reply::Refused(errno),
    }
}

/// Makes the reply of a call without a value of its own: the value is 0.
pub(crate) fn zero_reply(outcome: Result<(), u32>) -> Reply
    ensures { result ≡ zero_reply outcome }
{
    match outcome {
        Ok(()) => Reply::Done(0),
        Err(errno) => Reply::Refused(errno),
    }
}
