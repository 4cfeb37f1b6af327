//! Makes the calls of a script in sequence.
ghost use Rattle.std.specs.Prelude.{◌≡◌};
ghost use Rattle.asked_service.specs.unit_inputs.command_answers.Printing.{HasWriteCause, PrintsLines};
ghost use Rattle.asked_service.specs.kernel_model.Runs.{moment_at};
ghost use Rattle.replay_command.specs.Lines.{moment_line, run_text};
ghost use Rattle.replay_command.specs.Performed.{Makes, Performs};

use crate::lines::call_line;
use asked_service::{Call, CallTable, Launched, Script, World, put_line};
use host_io::{Sink, SinkError};
use std::alloc::Global;

// Makes a call, and prints its line.
fn make_call<K: Sink>(
    alloc: Global,
    world: &mut World,
    call: &Call,
    calls: &CallTable,
    out: &mut K,
) -> Result<(), SinkError>
    ensures prints_the_line { PrintsLines K.taken K.puts out.old out.new (moment_line calls.now (moment_at world.old call.now)) result }
    ensures fault_rose { HasWriteCause (K.faults out.old) (K.faults out.new) result }
    ensures makes_it { Makes world.old call.now (K.taken out.old) (K.taken out.new) result world.new }
{
    let Ok(reply) = world.step(alloc, call) else {
        return Err(SinkError::Memory);
    };
    put_line(out, call_line(alloc, call, reply, calls))
}

// Makes calls in sequence, and prints the line of each as it is made.
fn make_calls<K: Sink>(
    alloc: Global,
    world: &mut World,
    script: &[Call],
    calls: &CallTable,
    out: &mut K,
) -> Result<(), SinkError>
    ensures prints_the_lines { PrintsLines K.taken K.puts out.old out.new (run_text calls.now world.old script.now) result }
    ensures fault_rose { HasWriteCause (K.faults out.old) (K.faults out.new) result }
    ensures performs { Performs calls.now world.old script.now (K.taken out.old) (K.taken out.new) result world.new }
{
    for call in script {
        make_call(alloc, world, call, calls, out)?;
    }
    Ok(())
}

/// Makes the calls of a script in the world of a launched service, and prints a line for each as it is made. The line has the
/// call, as `print_call` gives it with this table of calls, and its reply: `ok` with a value, `errno` with an error number, or
/// `killed`.
///
/// A run of the script from the service's world gives these replies, and leaves this world. After a refused call, and after a
/// call that kills its caller, the next call is made. `Failed` is returned only if the sink's count of faults rose.
///
/// On an error the sink took a prefix of the text. The calls whose lines it took whole were made, in order. At most one more
/// call was made, whose line it took in part or not at all. The rest of the service is unchanged.
pub fn replay<K: Sink>(
    alloc: Global,
    launched: &mut Launched,
    script: &Script,
    calls: &CallTable,
    out: &mut K,
) -> Result<(), SinkError>
    ensures prints_the_lines { PrintsLines K.taken K.puts out.old out.new (run_text calls.now launched.old.world script.now) result }
    ensures fault_rose { HasWriteCause (K.faults out.old) (K.faults out.new) result }
    ensures performs { Performs calls.now launched.old.world script.now (K.taken out.old) (K.taken out.new) result launched.new.world }
    ensures rest_stays { launched.new ≡ record launched.old { world = launched.new.world } }
{
    make_calls(alloc, &mut launched.world, script.list(), calls, out)
}
