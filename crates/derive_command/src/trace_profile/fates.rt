//! What the programs of a caller do to a call.

ghost use Rattle.std.specs.Prelude.{◌≡◌, ◌<◌, Some, length};
ghost use Rattle.asked_service.specs.call_table.Table.{abis};
ghost use Rattle.derive_command.specs.trace_profile.Foretelling.{fate_of, fate_on, input_in};

use asked_service::{Call, CallTable, World};
use bpf_code::{CallData, Decision};

/// What the programs of a caller do to a call.
#[derive(Clone, Copy)]
pub enum Fate {
    /// They are not asked: no living process makes the call, or the table lacks its ABI.
    Unasked,
    /// They let it through.
    Passed,
    /// They refuse it, or the caller is killed.
    Stopped,
}

// What programs see of a call whose ABI the table has.
fn input_of(calls: &CallTable, call: &Call) -> CallData
    requires has_the_abi { call.now.abi < length (abis calls.now) }
    ensures { input_in calls.now call.now ≡ Some result }
{
    CallData {
        nr: call.nr,
        arch: calls.arch_of(call.abi),
        ip: 0,
        args: call.args,
    }
}

/// What programs see of a call, if the table has its ABI.
pub fn input_in(calls: &CallTable, call: &Call) -> Option<CallData>
    ensures seen { result ≡ input_in calls.now call.now }
{
    if call.abi < calls.abis() {
        Some(input_of(calls, call))
    } else {
        None
    }
}

fn fate_on(decision: Decision) -> Fate
    ensures { result ≡ fate_on decision }
{
    match decision {
        Decision::Pass => Fate::Passed,
        Decision::Errno(_) | Decision::Kill => Fate::Stopped,
    }
}

/// What the programs of its caller do to a call.
pub fn fate_of(world: &World<'_>, call: &Call) -> Fate
    ensures of_the_caller { result ≡ fate_of world.now call.now }
{
    let Some(input) = input_in(world.call_table(), call) else {
        return Fate::Unasked;
    };
    match world.process(call.pid) {
        Some(process) => {
            if process.alive {
                fate_on(process.stack.decide(&input))
            } else {
                Fate::Unasked
            }
        }
        None => Fate::Unasked,
    }
}
