//! The launch of the unit, and of the unit with the drop-in. The line of a refusal of the second follows the word `with`.
ghost use Rattle.std.specs.Prelude.{◌∷◌, [], IsErrOf, option_map};
ghost use Rattle.asked_service.specs.unit_inputs.command_answers.CommandErrors.{Prepares};
ghost use Rattle.asked_service.specs.launching.Starting.{StartsAs, first_start, given, start_refusals};
ghost use Rattle.effect_command.specs.Lines.{with_line};
ghost use Rattle.effect_command.specs.Stopping.{IsBehindWith};

use crate::lines::with_line;
use asked_service::{
    CallTable, CommandError, LaunchError, Launched, Resolved, SiteTable, launch_unit, refuse,
    refused_launch,
};
use std::alloc::Global;

/// Launches the unit. A launch that is refused is an answer, since a setting or a path of the unit with the drop-in is refused
/// before it.
pub fn start<'a>(
    alloc: Global,
    name: &str,
    unit: &Resolved,
    calls: &'a CallTable,
    site: &'a SiteTable,
) -> Result<Result<Launched<'a>, LaunchError>, CommandError>
    ensures starts { Prepares (StartsAs (given unit.now calls.now site.now)) (start_refusals name.now (given unit.now calls.now site.now)) result }
    ensures reads_nothing { IsErrOf result CommandError.ReadFault → ⊥ }
{
    match launch_unit(alloc, unit, calls, site) {
        Ok(service) => Ok(Ok(service)),
        Err(refusal) => Ok(Err(refused_launch(alloc, name, refusal)?)),
    }
}

// The same refusal, of the unit with the drop-in.
fn behind_with(alloc: Global, stop: CommandError) -> CommandError
    ensures { IsBehindWith stop result }
{
    match stop {
        CommandError::Refused(line) => refuse(with_line(alloc, line.as_slice())),
        CommandError::ReadFault => CommandError::ReadFault,
        CommandError::Memory => CommandError::Memory,
    }
}

/// Launches the unit with the drop-in. The line of a refusal follows the word `with`.
pub fn start_with<'a>(
    alloc: Global,
    name: &str,
    longer: &Resolved,
    calls: &'a CallTable,
    site: &'a SiteTable,
) -> Result<Result<Launched<'a>, LaunchError>, CommandError>
    ensures starts { Prepares (StartsAs (given longer.now calls.now site.now)) (option_map with_line (first_start name.now (given longer.now calls.now site.now)) ∷ []) result }
    ensures reads_nothing { IsErrOf result CommandError.ReadFault → ⊥ }
{
    match start(alloc, name, longer, calls, site) {
        Ok(launch) => Ok(launch),
        Err(stop) => Err(behind_with(alloc, stop)),
    }
}
