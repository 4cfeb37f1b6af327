//! The outcome of a comparison, ready to be printed.
ghost use Rattle.std.specs.Prelude.{◌≡◌};
ghost use Rattle.check_command.specs.Lines.{status_by};

use crate::lines::outcome_line;
use filter_check::Outcome;
use host_io::{Sink, SinkError};
use std::alloc::Global;
use unit_inputs::command_answers::{ExitStatus, Ready, put_line};

/// What the comparison of a program with a filter of a unit found.
#[derive(Drop)]
pub struct Checked {
    pub outcome: Outcome,
}

// How a run ends after this outcome.
fn status_by(outcome: &Outcome) -> ExitStatus
    ensures { result ≡ status_by outcome.now }
{
    match outcome {
        Outcome::Same(_) => ExitStatus::Done,
        Outcome::Differs { .. } => ExitStatus::Differs,
    }
}

impl Ready for Checked {
    ghost use Rattle.check_command.specs.Checked.{checked_text, status_of};

    ghost text = { checked_text };

    ghost status = { status_of };

    fn status(&self) -> ExitStatus {
        status_by(&self.outcome)
    }

    fn print<K: Sink>(&mut self, alloc: Global, out: &mut K) -> Result<(), SinkError> {
        put_line(out, outcome_line(alloc, &self.outcome))
    }
}
