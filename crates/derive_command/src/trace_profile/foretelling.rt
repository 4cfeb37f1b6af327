//! Foretells the replies to a script under the programs of another launch, without making its calls.

ghost use Rattle.std.specs.Prelude.{◌≡◌, length};
ghost use Rattle.derive_command.specs.trace_profile.Foretelling.{foretells, foretold, foretold_in, input_in, told};

use crate::trace_profile::fates::{Fate, input_in};
use crate::trace_profile::replies::are_same;
use asked_service::{Call, CallTable, Reply};
use bpf_code::{Decision, Stack};

// The reply to a call by the decision of these programs, where a call that they let through has this reply.
fn told(decision: Decision, through: Option<Reply>) -> Option<Reply>
    ensures { result ≡ told decision through }
{
    match decision {
        Decision::Pass => through,
        Decision::Errno(errno) => Some(Reply::Refused(errno)),
        Decision::Kill => Some(Reply::Killed),
    }
}

fn foretold(fate: Fate, decision: Decision, said: Reply) -> Option<Reply>
    ensures { result ≡ foretold fate decision said }
{
    match fate {
        Fate::Unasked => Some(said),
        Fate::Passed => told(decision, Some(said)),
        Fate::Stopped => told(decision, None),
    }
}

// The reply of a call by these programs, if it is known.
fn foretold_in(
    calls: &CallTable,
    call: &Call,
    stack: &Stack,
    fate: Fate,
    said: Reply,
) -> Option<Reply>
    ensures { result ≡ foretold_in (input_in calls.now call.now) stack.now fate said }
{
    match input_in(calls, call) {
        Some(input) => foretold(fate, stack.decide(&input), said),
        None => Some(said),
    }
}

/// Returns whether a script has the replies `said` under these programs too. `fates` says what the programs that gave those replies
/// did to each call. The first call with another reply decides. Returns none if an earlier call was stopped and now passes: its reply
/// is unknown.
pub fn foretell(
    calls: &CallTable,
    stack: &Stack,
    script: &[Call],
    fates: &[Fate],
    said: &[Reply],
) -> Option<bool>
    requires a_fate_each { length fates.now ≡ length script.now }
    requires one_each { length said.now ≡ length script.now }
    ensures foretells { result ≡ foretells calls.now stack.now script.now fates.now said.now }
{
    for (at, call) in script.iter().enumerate() {
        match foretold_in(calls, call, stack, fates[at], said[at]) {
            None => return None,
            Some(own) => {
                if !are_same(own, said[at]) {
                    return Some(false);
                }
            }
        }
    }
    Some(true)
}
