//! Replays, made and printed line by line.
ghost use Rattle.asked_service.specs.unit_inputs.command_answers.Printing.{HasWriteCause, PrintsLines};
ghost use Rattle.replay_command.specs.Texts.{replay_text, service_text};

use crate::lines::count_line;
use crate::replaying::replay;
use asked_service::launching::told;
use asked_service::{
    CallTable, LaunchError, Launched, Script, launch_line, launched_line, put_line,
};
use host_io::{Sink, SinkError};
use std::alloc::Global;

// Prints the launch, each call of the script as it is made, and how many there are.
fn print_service<K: Sink>(
    alloc: Global,
    service: &mut Launched,
    script: &Script,
    calls: &CallTable,
    out: &mut K,
) -> Result<(), SinkError>
    ensures prints_the_text { PrintsLines K.taken K.puts out.old out.new (service_text calls.now script.now service.old) result }
    ensures fault_rose { HasWriteCause (K.faults out.old) (K.faults out.new) result }
{
    put_line(out, launched_line(alloc, told(service)))?;
    replay(alloc, service, script, calls, out)?;
    put_line(out, count_line(alloc, script.list().len()))
}

/// Prints a replay of the script after this launch, or why the launch was refused.
pub fn print_replay<K: Sink>(
    alloc: Global,
    launch: &mut Result<Launched, LaunchError>,
    script: &Script,
    calls: &CallTable,
    out: &mut K,
) -> Result<(), SinkError>
    ensures prints_the_text { PrintsLines K.taken K.puts out.old out.new (replay_text calls.now script.now launch.old) result }
    ensures fault_rose { HasWriteCause (K.faults out.old) (K.faults out.new) result }
{
    match launch {
        Ok(service) => print_service(alloc, service, script, calls, out),
        Err(error) => put_line(out, launch_line(alloc, error)),
    }
}
