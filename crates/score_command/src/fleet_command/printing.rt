//! Reports of all units, printed line by line.
ghost use Rattle.std.specs.Prelude.{flat_map};
ghost use Rattle.unit_inputs.specs.command_answers.Printing.{HasWriteCause, PrintsLines};
ghost use Rattle.score_command.specs.fleet_command.Texts.{fleet_text, row_line};

use crate::fleet_command::fleet_report::FleetRow;
use crate::fleet_command::wording::{count_refused, counts_line, row_line};
use host_io::{Sink, SinkError};
use std::alloc::Global;
use unit_inputs::command_answers::put_line;

// Prints what came of each unit.
fn print_rows<K: Sink>(alloc: Global, rows: &[FleetRow], out: &mut K) -> Result<(), SinkError>
    ensures prints_the_text { PrintsLines K.taken K.puts out.old out.new (flat_map row_line rows.now) result }
    ensures fault_rose { HasWriteCause (K.faults out.old) (K.faults out.new) result }
{
    for row in rows {
        put_line(out, row_line(alloc, row))?;
    }
    Ok(())
}

/// Prints a report: a line for each unit, and how many there are.
pub fn print_fleet<K: Sink>(alloc: Global, rows: &[FleetRow], out: &mut K) -> Result<(), SinkError>
    ensures prints_the_text { PrintsLines K.taken K.puts out.old out.new (fleet_text rows.now) result }
    ensures fault_rose { HasWriteCause (K.faults out.old) (K.faults out.new) result }
{
    print_rows(alloc, rows, out)?;
    put_line(out, counts_line(alloc, rows.len(), count_refused(rows)))
}
