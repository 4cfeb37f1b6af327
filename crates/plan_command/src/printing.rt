//! Mounts, printed line by line.
ghost use Rattle.std.specs.Prelude.{flat_map};
ghost use Rattle.unit_inputs.specs.command_answers.Printing.{HasWriteCause, PrintsLines};
ghost use Rattle.plan_command.specs.Lines.{mount_line};

use crate::lines::mount_line;
use host_io::{Sink, SinkError};
use mount_plan::MountStep;
use std::alloc::Global;
use unit_inputs::command_answers::put_line;

/// Prints mounts in their order: for each its place, what it shows there, and whether that may be written and executed.
pub fn print_mounts<K: Sink>(
    alloc: Global,
    steps: &[MountStep],
    out: &mut K,
) -> Result<(), SinkError>
    ensures prints_the_text { PrintsLines K.taken K.puts out.old out.new (flat_map mount_line steps.now) result }
    ensures fault_rose { HasWriteCause (K.faults out.old) (K.faults out.new) result }
{
    for step in steps {
        put_line(out, mount_line(alloc, step))?;
    }
    Ok(())
}
