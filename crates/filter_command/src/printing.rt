//! Compiled filters, printed line by line.
ghost use Rattle.std.specs.Prelude.{flat_map};
ghost use Rattle.unit_inputs.specs.command_answers.Printing.{HasWriteCause, PrintsLines};
ghost use Rattle.filter_command.specs.Lines.{filter_text, insn_line};

use crate::lines::{head_line, insn_line};
use host_io::{Sink, SinkError};
use launcher::{FilterProgram, Insn};
use std::alloc::Global;
use unit_inputs::command_answers::put_line;

// Prints instructions.
fn print_insns<K: Sink>(alloc: Global, insns: &[Insn], out: &mut K) -> Result<(), SinkError>
    ensures prints_the_text { PrintsLines K.taken K.puts out.old out.new (flat_map insn_line insns.now) result }
    ensures fault_rose { HasWriteCause (K.faults out.old) (K.faults out.new) result }
{
    for insn in insns {
        put_line(out, insn_line(alloc, insn))?;
    }
    Ok(())
}

// Prints a filter.
fn print_filter<K: Sink>(
    alloc: Global,
    filter: &FilterProgram,
    out: &mut K,
) -> Result<(), SinkError>
    ensures prints_the_text { PrintsLines K.taken K.puts out.old out.new (filter_text filter.now) result }
    ensures fault_rose { HasWriteCause (K.faults out.old) (K.faults out.new) result }
{
    put_line(out, head_line(alloc, filter))?;
    print_insns(alloc, filter.program.insns(), out)
}

/// Prints filters in their order: for each its name and length, and its instructions.
pub fn print_filters<K: Sink>(
    alloc: Global,
    filters: &[FilterProgram],
    out: &mut K,
) -> Result<(), SinkError>
    ensures prints_the_text { PrintsLines K.taken K.puts out.old out.new (flat_map filter_text filters.now) result }
    ensures fault_rose { HasWriteCause (K.faults out.old) (K.faults out.new) result }
{
    for filter in filters {
        print_filter(alloc, filter, out)?;
    }
    Ok(())
}
