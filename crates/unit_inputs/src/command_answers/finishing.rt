// Ends a run after a command was prepared.
ghost use Rattle.std.specs.Prelude.{◌≡◌};
ghost use Rattle.unit_inputs.specs.command_answers.Printing.{Finishes, FinishesError, status_of_put, output_of};

use crate::command_answers::error::CommandError;
use crate::command_answers::exit_status::ExitStatus;
use crate::command_answers::lines::put_lines;
use crate::command_answers::ready::Ready;
use host_io::{Sink, SinkError};
use std::alloc::Global;

/// Returns the exit status of a run that printed its text: this status after a whole text, or the fault of the sink.
pub fn status_after(put: Result<(), SinkError>, status: ExitStatus) -> ExitStatus
    ensures as_it_was_put { result ≡ status_of_put put status }
{
    match put {
        Ok(()) => status,
        Err(SinkError::Failed) => ExitStatus::WriteFault,
        Err(SinkError::Memory) => ExitStatus::OutOfMemory,
    }
}

/// Prints the line of the error that stopped a command, if it has one, and returns the exit status.
pub fn finish_error<K: Sink>(stop: CommandError, out: &mut K) -> ExitStatus
    ensures finishes { FinishesError stop result (output_of K.faults K.taken K.puts out.old out.new) }
{
    match stop {
        CommandError::Refused(line) => {
            let put = put_lines(out, line.as_slice());
            status_after(put, ExitStatus::Refused)
        }
        CommandError::ReadFault => ExitStatus::ReadFault,
        CommandError::Memory => ExitStatus::OutOfMemory,
    }
}

/// Prints the text that a command has ready, or the line of its refusal, and returns the exit status.
pub fn finish<R: Ready, K: Sink>(
    alloc: Global,
    prepared: Result<R, CommandError>,
    out: &mut K,
) -> ExitStatus
    ensures finishes { Finishes R.status R.text prepared result (output_of K.faults K.taken K.puts out.old out.new) }
{
    match prepared {
        Ok(mut ready) => {
            let status = ready.status();
            let put = ready.print(alloc, out);
            status_after(put, status)
        }
        Err(stop) => finish_error(stop, out),
    }
}
