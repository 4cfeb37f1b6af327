//! The counts of a sample, ready to be printed.
ghost use Rattle.std.specs.Prelude.{◌≡◌, IfOk};
ghost use Rattle.sample_command.specs.Prints.{count_line};

use asked_service::{ExitStatus, Ready, put_line};
use host_io::{Sink, SinkError};
use std::alloc::{AllocError, Global};

/// What a sample came to.
#[derive(Drop)]
pub struct Sampled {
    /// The number that it is made from.
    pub number: u32,
    /// The rows of its site, `/` and `/proc` among them.
    pub rows: usize,
    /// The questions that are asked of its service.
    pub questions: usize,
    /// Those that no list of calls reaches.
    pub denied: usize,
    /// The others.
    pub open: usize,
}

// A word and a number.
fn count_line(alloc: Global, word: &str, number: usize) -> Result<Vec<u8>, AllocError>
    ensures counts { IfOk result (λ line. line.items ≡ count_line word.now number) }
{
    Ok(format!(in alloc; "{word} {number}\n")?.into_bytes())
}

impl Ready for Sampled {
    ghost use Rattle.sample_command.specs.Prints.{status_of, sampled_text};

    ghost text = { sampled_text };

    ghost status = { status_of };

    fn status(&self) -> ExitStatus {
        ExitStatus::Done
    }

    fn print<K: Sink>(&mut self, alloc: Global, out: &mut K) -> Result<(), SinkError> {
        put_line(out, count_line(alloc, "sample", self.number as usize))?;
        put_line(out, count_line(alloc, "rows", self.rows))?;
        put_line(out, count_line(alloc, "questions", self.questions))?;
        put_line(out, count_line(alloc, "denied", self.denied))?;
        put_line(out, count_line(alloc, "open", self.open))
    }
}
