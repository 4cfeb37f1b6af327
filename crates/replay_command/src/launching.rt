//! The launch of what is prepared.
ghost use Rattle.std.specs.Prelude.{IsErrOf};
ghost use Rattle.asked_service.specs.launching.Settled.{IsSettled, StartsBy, inputs_in};
ghost use Rattle.asked_service.specs.launching.Starting.{start_refusals};
ghost use Rattle.asked_service.specs.unit_inputs.command_answers.CommandErrors.{Prepares};
ghost use Rattle.replay_command.specs.Prepared.{CanBeStarted};
ghost use Rattle.replay_command.specs.Started.{IsStarted};

use crate::preparing::Prepared;
use crate::ready::Replay;
use asked_service::{
    CommandError, LaunchError, Launched, SettledUnit, launch_settled, refused_launch,
};
use std::alloc::Global;

// Launches the unit. A launch that is refused is replayed as its line.
fn start_unit<'a>(
    alloc: Global,
    name: &str,
    one: &'a SettledUnit,
) -> Result<Result<Launched<'a>, LaunchError>, CommandError>
    requires settled { IsSettled one.now }
    ensures starts { Prepares (StartsBy one.now) (start_refusals name.now (inputs_in one.now)) result }
    ensures reads_nothing { IsErrOf result CommandError.ReadFault → ⊥ }
{
    match launch_settled(alloc, one) {
        Ok(service) => Ok(Ok(service)),
        Err(refusal) => Ok(Err(refused_launch(alloc, name, refusal)?)),
    }
}

/// Launches the prepared unit, or finds the first path that is refused. The replay borrows the tables of `prepared`.
pub fn start<'a>(
    alloc: Global,
    name: &str,
    prepared: &'a Prepared,
) -> Result<Replay<'a>, CommandError>
    requires can_be_started { CanBeStarted prepared.now }
    ensures starts { Prepares (IsStarted prepared.now) (start_refusals name.now (inputs_in prepared.now.unit)) result }
    ensures reads_nothing { IsErrOf result CommandError.ReadFault → ⊥ }
{
    let launch = start_unit(alloc, name, &prepared.unit)?;
    Ok(Replay {
        launch,
        script: &prepared.script,
        calls: &prepared.unit.inputs.calls,
    })
}
