//! Reports, printed line by line.
ghost use Rattle.std.specs.Prelude.{flat_map};
ghost use Rattle.asked_service.specs.unit_inputs.command_answers.Printing.{HasWriteCause, PrintsLines};
ghost use Rattle.asked_service.specs.report_text.Notes.{note_line};
ghost use Rattle.asked_service.specs.Asking.{IsAsked};
ghost use Rattle.judge_command.specs.Asked.{asked_text};
ghost use Rattle.judge_command.specs.Prepared.{settings_in, unit_in};
ghost use Rattle.judge_command.specs.Report.{report_text};
ghost use Rattle.judge_command.specs.Started.{CanBeTold, told_text};

use crate::answers::print_answers;
use crate::folders::print_folders;
use crate::launching::Outcome;
use asked_service::launching::{launch_line, told};
use asked_service::{
    Asked, FileNote, Resolved, SettledUnit, launched_line, note_line, put_line,
    report_text_unit_line as unit_line, summary_line,
};
use host_io::{Sink, SinkError};
use std::alloc::Global;

// Prints notes in their order.
fn print_notes<K: Sink>(
    alloc: Global,
    unit: &Resolved,
    notes: &[FileNote],
    out: &mut K,
) -> Result<(), SinkError>
    ensures prints_the_text { PrintsLines K.taken K.puts out.old out.new (flat_map (note_line unit.now.files) notes.now) result }
    ensures fault_rose { HasWriteCause (K.faults out.old) (K.faults out.new) result }
{
    for note in notes {
        put_line(out, note_line(alloc, unit, note))?;
    }
    Ok(())
}

// Prints a launched service: its launch, the answers, the folders that are blind, and the count.
fn print_asked<K: Sink>(alloc: Global, asked: &Asked<'_>, out: &mut K) -> Result<(), SinkError>
    requires asked { IsAsked asked.now }
    ensures prints_the_text { PrintsLines K.taken K.puts out.old out.new (asked_text asked.now) result }
    ensures fault_rose { HasWriteCause (K.faults out.old) (K.faults out.new) result }
{
    let questions = asked.questions.as_slice();
    let rows = asked.bounded.service.world.site_table().rows();
    let mut denied = 0;
    put_line(out, launched_line(alloc, told(&asked.bounded.service)))?;
    print_answers(alloc, asked, questions, &mut denied, out)?;
    print_folders(alloc, asked, rows, out)?;
    put_line(out, summary_line(alloc, denied, questions.len() - denied))
}

// Prints what a launch came to.
fn print_outcome<K: Sink>(
    alloc: Global,
    outcome: &Outcome<'_>,
    out: &mut K,
) -> Result<(), SinkError>
    requires can_be_told { CanBeTold outcome.now }
    ensures prints_the_text { PrintsLines K.taken K.puts out.old out.new (told_text outcome.now) result }
    ensures fault_rose { HasWriteCause (K.faults out.old) (K.faults out.new) result }
{
    match outcome {
        Outcome::Asked(asked) => print_asked(alloc, asked, out),
        Outcome::Refused(error) => put_line(out, launch_line(alloc, error)),
    }
}

// Prints the parts of a report in their order.
fn print_parts<K: Sink>(
    alloc: Global,
    name: &str,
    unit: &Resolved,
    notes: &[FileNote],
    outcome: &Outcome<'_>,
    out: &mut K,
) -> Result<(), SinkError>
    requires can_be_told { CanBeTold outcome.now }
    ensures prints_the_text { PrintsLines K.taken K.puts out.old out.new (report_text name.now unit.now.files notes.now (told_text outcome.now)) result }
    ensures fault_rose { HasWriteCause (K.faults out.old) (K.faults out.new) result }
{
    put_line(out, unit_line(alloc, name))?;
    print_notes(alloc, unit, notes, out)?;
    print_outcome(alloc, outcome, out)
}

/// Prints a report: the unit, the notes, and what its launch came to, each line as it is made.
pub fn print_report<K: Sink>(
    alloc: Global,
    name: &str,
    unit: &SettledUnit,
    outcome: &Outcome<'_>,
    out: &mut K,
) -> Result<(), SinkError>
    requires can_be_told { CanBeTold outcome.now }
    ensures prints_the_text { PrintsLines K.taken K.puts out.old out.new (report_text name.now (unit_in unit.now).files (settings_in unit.now).notes.items (told_text outcome.now)) result }
    ensures fault_rose { HasWriteCause (K.faults out.old) (K.faults out.new) result }
{
    let notes = unit.settings.notes.as_slice();
    print_parts(alloc, name, &unit.inputs.unit, notes, outcome, out)
}
