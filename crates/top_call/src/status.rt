//! The number that the process ends with.
ghost use Rattle.std.specs.Prelude.{◌≡◌};
ghost use Rattle.derive_command.specs.unit_inputs.command_answers.ExitStatuses.{code_of};

use plan_command::ExitStatus;
use std::marker::Model;

/// The status of a run:
/// - 0: done;
/// - 1: an exposure above the threshold;
/// - 2: no command;
/// - 3: a refused input;
/// - 4: a failed read;
/// - 5: a failed write;
/// - 6: memory ran out;
/// - 7: a refused launch;
/// - 8: filters that differ.
#[derive(Clone, Copy)]
pub struct Status {
    pub code: u8,
}

impl Model for Status {
    ghost use Rattle.std.specs.Prelude.{◌≡◌};
    ghost use Rattle.derive_command.specs.unit_inputs.command_answers.ExitStatuses.{code_of};
    ghost use Rattle.derive_command.specs.unit_inputs.declared.command_answers.exit_status.ExitStatus.{ExitStatus};
    ghost use Rattle.top_call.specs.Statuses.{status_of};

    ghost Value = { ExitStatus };

    ghost view = { λ status. status_of status.code };

    ghost invariant = { λ status. code_of (status_of status.code) ≡ status.code };

    ghost inverse = { λ status. record { code = code_of status } };
}

fn code(status: ExitStatus) -> u8
    ensures { result ≡ code_of status }
{
    match status {
        ExitStatus::Done => 0,
        ExitStatus::AboveThreshold => 1,
        ExitStatus::NoCommand => 2,
        ExitStatus::Refused => 3,
        ExitStatus::ReadFault => 4,
        ExitStatus::WriteFault => 5,
        ExitStatus::OutOfMemory => 6,
        ExitStatus::LaunchRefused => 7,
        ExitStatus::Differs => 8,
    }
}

impl Status {
    /// The status of a run that ends so.
    pub fn of(status: ExitStatus) -> Self
        ensures is_the_status { result ≡ status }
    {
        Status { code: code(status) }
    }
}
