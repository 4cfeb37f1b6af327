//! Prints the line of each blind folder as it is found.
ghost use Rattle.std.specs.Prelude.{◌≡◌, IfOk, flat_map};
ghost use Rattle.asked_service.specs.unit_inputs.command_answers.Printing.{HasWriteCause, PrintsLines};
ghost use Rattle.asked_service.specs.report_text.Answers.{blind_line};
ghost use Rattle.asked_service.specs.Asking.{IsAsked, IsRowIn};
ghost use Rattle.judge_command.specs.Asked.{folder_text};

use abs_path::AbsPath;
use asked_service::{Asked, Row, is_named, push_blind_line, put_line};
use host_io::{Sink, SinkError};
use std::alloc::{AllocError, Global};

// The line of a folder that is blind.
fn blind_line(alloc: Global, folder: &AbsPath) -> Result<Vec<u8>, AllocError>
    ensures names_the_folder { IfOk result (λ line. line.items ≡ blind_line folder.now) }
{
    let mut line = Vec::new(alloc);
    push_blind_line(&mut line, folder)?;
    Ok(line)
}

// Prints the line of a row, if it is a folder that is blind.
fn print_folder<K: Sink>(
    alloc: Global,
    asked: &Asked<'_>,
    row: &Row,
    out: &mut K,
) -> Result<(), SinkError>
    requires asked { IsAsked asked.now }
    requires row { IsRowIn asked.now row.now }
    ensures prints_the_text { PrintsLines K.taken K.puts out.old out.new (folder_text asked.now row.now) result }
    ensures fault_rose { HasWriteCause (K.faults out.old) (K.faults out.new) result }
{
    if is_named(asked, row) {
        put_line(out, blind_line(alloc, &row.path))
    } else {
        Ok(())
    }
}

/// Prints the folders that are blind among these rows, all of the site, in their order.
pub fn print_folders<K: Sink>(
    alloc: Global,
    asked: &Asked<'_>,
    rows: &[Row],
    out: &mut K,
) -> Result<(), SinkError>
    requires asked { IsAsked asked.now }
    requires all { rows.now ≡ asked.now.bounded.service.world.site.rows }
    ensures prints_the_text { PrintsLines K.taken K.puts out.old out.new (flat_map (folder_text asked.now) rows.now) result }
    ensures fault_rose { HasWriteCause (K.faults out.old) (K.faults out.new) result }
{
    for row in rows {
        print_folder(alloc, asked, row, out)?;
    }
    Ok(())
}
