//! Scores, printed line by line.
ghost use Rattle.std.specs.Prelude.{flat_map};
ghost use Rattle.unit_inputs.specs.command_answers.Printing.{HasWriteCause, PrintsLines};
ghost use Rattle.report_text.specs.Scores.{score_line};
ghost use Rattle.score_command.specs.Texts.{score_text};

use host_io::{Sink, SinkError};
use report_text::{Score, ScoreRow, exposure_line, score_line};
use std::alloc::Global;
use unit_inputs::command_answers::put_line;

// Prints what each test of the policy came to.
fn print_rows<K: Sink>(alloc: Global, rows: &[ScoreRow], out: &mut K) -> Result<(), SinkError>
    ensures prints_the_text { PrintsLines K.taken K.puts out.old out.new (flat_map score_line rows.now) result }
    ensures fault_rose { HasWriteCause (K.faults out.old) (K.faults out.new) result }
{
    for row in rows {
        put_line(out, score_line(alloc, row))?;
    }
    Ok(())
}

/// Prints a score: a line for each test of the policy, and the exposure with the threshold.
pub fn print_score<K: Sink>(
    alloc: Global,
    score: &Score,
    threshold: u32,
    out: &mut K,
) -> Result<(), SinkError>
    ensures prints_the_text { PrintsLines K.taken K.puts out.old out.new (score_text score.now threshold) result }
    ensures fault_rose { HasWriteCause (K.faults out.old) (K.faults out.new) result }
{
    print_rows(alloc, score.rows.list(), out)?;
    put_line(out, exposure_line(alloc, score.exposure, threshold))
}
