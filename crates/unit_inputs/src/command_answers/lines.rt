// Prints a text line by line.
ghost use Rattle.std.specs.Prelude.{◌≡◌, ◌<◌, ◌++◌, ◌==◌, IfSome, MatchOption, false, length, position};
ghost use Rattle.unit_inputs.specs.command_answers.Lines.{IsLine, has_feed};
ghost use Rattle.unit_inputs.specs.command_answers.Printing.{HasWriteCause, PutsText};

use host_io::{Sink, SinkError, write_whole};

// Returns the place of the first line feed.
fn feed_at(text: &[u8]) -> Option<usize>
    ensures first { result ≡ position (λ byte. byte == 10) text.now }
    ensures within { IfSome result (λ at. at < length text.now) }
{
    text.iter().position(|byte| *byte == b'\n')
}

// Returns the first line of a text, with its line feed, and the rest of the text.
fn first_line(text: &[u8]) -> Option<(&[u8], &[u8])>
    ensures in_two { IfSome result (λ parts. parts.0.now ++ parts.1.now ≡ text.now) }
    ensures shorter { IfSome result (λ parts. length parts.1.now < length text.now) }
    ensures a_line { MatchOption result (has_feed text.now ≡ false) (λ parts. IsLine parts.0.now) }
{
    let at = feed_at(text)?;
    Some(text.split_at(at + 1))
}

/// Prints a text: each line with its line feed is one piece for the sink, and so is an unended last line.
pub fn put_lines<K: Sink>(out: &mut K, text: &[u8]) -> Result<(), SinkError>
    ensures puts_the_text { PutsText K.taken K.puts out.old out.new text.now result }
    ensures fault_rose { HasWriteCause (K.faults out.old) (K.faults out.new) result }
{
    let mut left = text;
    while let Some((line, rest)) = first_line(left) {
        write_whole(out, line)?;
        left = rest;
    }
    write_whole(out, left)
}
