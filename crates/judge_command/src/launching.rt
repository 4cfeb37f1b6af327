//! The launch of what is prepared.
ghost use Rattle.std.specs.Prelude.{◌≡◌, IsErrOf};
ghost use Rattle.asked_service.specs.launching.Settled.{IsSettled, inputs_in};
ghost use Rattle.asked_service.specs.launching.Starting.{start_refusals};
ghost use Rattle.asked_service.specs.unit_inputs.command_answers.CommandErrors.{Prepares};
ghost use Rattle.judge_command.specs.Started.{IsStarted, status_of};

use asked_service::{
    Asked, CommandError, ExitStatus, LaunchError, SettledUnit, ask, launch_settled, refused_launch,
};
use std::alloc::Global;

/// What the launch of a unit came to.
#[derive(Drop)]
pub enum Outcome<'a> {
    /// It ended well, and this is asked of the service.
    Asked(Asked<'a>),
    /// It is refused.
    Refused(LaunchError),
}

/// Launches the prepared unit, or finds the first path that is refused. The result borrows the tables of the unit.
pub fn start<'a>(
    alloc: Global,
    name: &str,
    one: &'a SettledUnit,
) -> Result<Outcome<'a>, CommandError>
    requires settled { IsSettled one.now }
    ensures starts { Prepares (IsStarted one.now) (start_refusals name.now (inputs_in one.now)) result }
    ensures reads_nothing { IsErrOf result CommandError.ReadFault → ⊥ }
{
    match launch_settled(alloc, one) {
        Ok(service) => Ok(Outcome::Asked(ask(alloc, service)?)),
        Err(refusal) => Ok(Outcome::Refused(refused_launch(alloc, name, refusal)?)),
    }
}

/// Returns how a run ends after this outcome of the launch.
pub fn status_behind(outcome: &Outcome<'_>) -> ExitStatus
    ensures ends_so { result ≡ status_of outcome.now }
{
    match outcome {
        Outcome::Asked(_) => ExitStatus::Done,
        Outcome::Refused(_) => ExitStatus::LaunchRefused,
    }
}
