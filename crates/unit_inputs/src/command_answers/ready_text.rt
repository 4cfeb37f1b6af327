// Defines a text that is ready as a whole.
use crate::command_answers::exit_status::ExitStatus;
use crate::command_answers::lines::put_lines;
use crate::command_answers::ready::Ready;
use host_io::{Sink, SinkError};
use std::alloc::Global;

/// A text of lines that is ready as a whole, and the exit status after it. It is printed line by line.
#[derive(Drop)]
pub struct ReadyText {
    /// The text.
    pub text: Vec<u8>,
    /// The exit status after the text.
    pub status: ExitStatus,
}

impl Ready for ReadyText {
    ghost use Rattle.unit_inputs.specs.command_answers.ReadyTexts.{status_of, text_of};

    ghost text = { text_of };

    ghost status = { status_of };

    fn status(&self) -> ExitStatus {
        self.status
    }

    fn print<K: Sink>(&mut self, _alloc: Global, out: &mut K) -> Result<(), SinkError> {
        put_lines(out, self.text.as_slice())
    }
}
