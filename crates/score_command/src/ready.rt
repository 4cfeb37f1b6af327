//! A score, ready to be printed.
ghost use Rattle.std.specs.Prelude.{◌≡◌};
ghost use Rattle.score_command.specs.Texts.{status_by};

use crate::printing::print_score;
use host_io::{Sink, SinkError};
use report_text::Score;
use std::alloc::Global;
use unit_inputs::command_answers::{ExitStatus, Ready};

/// The score of a unit, and the threshold that its exposure is held against.
#[derive(Drop)]
pub struct Scored {
    /// What the tests of the policy came to, and the exposure.
    pub score: Score,
    /// The most that the exposure may be, in hundredths, for the run to end as done.
    pub threshold: u32,
}

// How a run ends after a score.
fn status_by(score: &Score, threshold: u32) -> ExitStatus
    ensures { result ≡ status_by score.now threshold }
{
    if score.exposure > threshold {
        ExitStatus::AboveThreshold
    } else {
        ExitStatus::Done
    }
}

impl Ready for Scored {
    ghost use Rattle.score_command.specs.Prints.{status_of, scored_text};

    ghost text = { scored_text };

    ghost status = { status_of };

    fn status(&self) -> ExitStatus {
        status_by(&self.score, self.threshold)
    }

    fn print<K: Sink>(&mut self, alloc: Global, out: &mut K) -> Result<(), SinkError> {
        print_score(alloc, &self.score, self.threshold, out)
    }
}
