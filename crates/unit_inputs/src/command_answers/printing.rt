// Prints a text line by line.
ghost use Rattle.std.specs.Prelude.{ℕ, List, IfOk, ◌≡◌};
ghost use Rattle.unit_inputs.specs.command_answers.Lines.{IsOfLines};
ghost use Rattle.unit_inputs.specs.command_answers.Printing.{HasWriteCause, PrintsLines, PutsText};

use crate::command_answers::lines::put_lines;
use host_io::{Sink, SinkError};
use std::alloc::AllocError;

/// Prints a line, or lines, each with its line feed as one piece. It prints nothing if memory ran out for them.
pub fn put_line<K: Sink>(out: &mut K, line: Result<Vec<u8>, AllocError>) -> Result<(), SinkError>
    ensures puts_the_text { (text : List ℕ) → IfOk line (λ line. line.items ≡ text) → PutsText K.taken K.puts out.old out.new text result }
    ensures prints_the_line { (text : List ℕ) → IfOk line (λ line. line.items ≡ text) → IsOfLines text → PrintsLines K.taken K.puts out.old out.new text result }
    ensures fault_rose { HasWriteCause (K.faults out.old) (K.faults out.new) result }
{
    match line {
        Ok(line) => put_lines(out, line.as_slice()),
        Err(_) => Err(SinkError::Memory),
    }
}
