// Defines the text that a command has ready for printing.
ghost use Rattle.std.specs.Prelude.{ℕ, List, ◌≡◌};
ghost use Rattle.unit_inputs.specs.command_answers.Printing.{HasWriteCause, PutsText};
ghost use Rattle.unit_inputs.specs.declared.command_answers.exit_status.ExitStatus.{ExitStatus};

use crate::command_answers::exit_status::ExitStatus;
use host_io::{Sink, SinkError};
use std::alloc::Global;

/// A command that is prepared: it has read all inputs, found no refusal, and printed nothing yet.
pub trait Ready: Drop {
    /// The whole text.
    ghost text: { Self → List ℕ };

    /// The exit status after the whole text.
    ghost status: { Self → ExitStatus };

    /// Returns the exit status after the whole text.
    fn status(&self) -> ExitStatus
        ensures ends_so { result ≡ status self.now };

    /// Prints the text: each line with its line feed is one piece for the sink, and so is an unended last line. At an error the
    /// sink has taken a prefix of the text, line by line. Printing may use up the text: a text whose lines are made while it is
    /// printed can be printed once.
    fn print<K: Sink>(&mut self, alloc: Global, out: &mut K) -> Result<(), SinkError>
        ensures puts_the_text { PutsText K.taken K.puts out.old out.new (text self.old) result }
        ensures fault_rose { HasWriteCause (K.faults out.old) (K.faults out.new) result };
}
