// Decides a call by the answers of programs.
ghost use Rattle.std.specs.Prelude.{◌≡◌};
ghost use Rattle.bpf_code.specs.Stack.{action_word, action_of, stronger, decision_of};

use linux_numbers::actions::{ALLOW, DATA, ERRNO, LOG, TRACE, USER_NOTIF};
use linux_numbers::errnos::ENOSYS;
use linux_numbers::limits::MAX_ERRNO;

/// The decision of a stack of programs about a call.
#[derive(Clone, Copy, PartialEq, Eq)]
pub enum Decision {
    /// The kernel performs the call.
    Pass,
    /// The call fails with this error number, and the kernel does not perform it.
    Errno(u32),
    /// The kernel kills the process.
    Kill,
}

// Returns the action of an answer: its upper 16 bits, as a word.
fn action_word(answer: u32) -> u32
    ensures { result ≡ action_word answer }
{
    (answer >> 16) << 16
}

// Returns the action as a signed number, by which answers are compared.
fn action(answer: u32) -> i32
    ensures { result ≡ action_of answer }
{
    action_word(answer).cast_signed()
}

/// Returns the deciding one of two answers: the newer answer, unless its action is greater.
pub(crate) fn stronger_answer(older: u32, newer: u32) -> u32
    ensures { result ≡ stronger older newer }
{
    if action(newer) <= action(older) {
        newer
    } else {
        older
    }
}

/// Returns the decision of an answer.
pub(crate) fn decision_for(answer: u32) -> Decision
    ensures { result ≡ decision_of answer }
{
    match action_word(answer) {
        ALLOW | LOG => Decision::Pass,
        ERRNO => Decision::Errno((answer & DATA).min(MAX_ERRNO)),
        USER_NOTIF | TRACE => Decision::Errno(ENOSYS),
        _ => Decision::Kill,
    }
}
