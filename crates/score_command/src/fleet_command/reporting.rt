//! The rows of all units.
ghost use Rattle.std.specs.Prelude.{◌≡◌, ◌∷◌, []};
ghost use Rattle.unit_inputs.specs.host_io.Agreeing.{ForFiles};
ghost use Rattle.report_text.specs.exposure_score.policy_weights.Weights.{weight_of};
ghost use Rattle.unit_inputs.specs.command_answers.Asking.{course};
ghost use Rattle.unit_inputs.specs.command_answers.CommandErrors.{HasReadCause, Prepares};
ghost use Rattle.score_command.specs.fleet_command.fleet_report.Asking.{rows_asks, unless_weightless};
ghost use Rattle.unit_inputs.specs.Asking.{AsksInOrder};
ghost use Rattle.score_command.specs.Weights.{weight_refusal};
ghost use Rattle.score_command.specs.fleet_command.Inputs.{inputs_view};
ghost use Rattle.score_command.specs.fleet_command.Reports.{AreFleet};

use crate::fleet_command::fleet_report::{FleetError, FleetRow, fleet};
use crate::fleet_command::preparing::FleetInputs;
use host_io::Shelf;
use report_text::{CustomTest, Stored};
use std::alloc::Global;
use unit_inputs::command_answers::{CommandError, refuse, refused_line};

/// Makes the rows of the units by the policy of this path. If the policy has no weight, returns its line before a unit is read.
pub fn report<S: Shelf>(
    alloc: Global,
    shelf: &mut S,
    path: &str,
    inputs: &FleetInputs,
    tests: &[CustomTest],
) -> Result<Vec<FleetRow>, CommandError>
    ensures reports { ForFiles (S.agrees shelf.new) (λ files. Prepares (λ rows. AreFleet files (inputs_view inputs.now) (⟦<CustomTest as Stored>⟧.stored tests.now) rows.items)
        (weight_refusal path.now (weight_of (inputs_view inputs.now).calls (⟦<CustomTest as Stored>⟧.stored tests.now) (inputs_view inputs.now).policy) ∷ []) result) }
    ensures asks_in_order { AsksInOrder S.asks (S.agrees shelf.new) (λ files. unless_weightless (weight_of (inputs_view inputs.now).calls (⟦<CustomTest as Stored>⟧.stored tests.now) (inputs_view inputs.now).policy) (rows_asks files (inputs_view inputs.now).names)) shelf.old shelf.new (course result) }
    ensures answers_stay { ForFiles (S.agrees shelf.new) (S.agrees shelf.old) }
    ensures fault_rose { HasReadCause (S.faults shelf.old) (S.faults shelf.new) result }
{
    let rows = fleet(
        alloc,
        shelf,
        &inputs.names,
        &inputs.calls,
        &inputs.site,
        &inputs.policy,
        tests,
    );
    match rows {
        Ok(rows) => Ok(rows),
        Err(FleetError::NoWeight) => Err(refuse(refused_line(alloc, path, b"no-weight"))),
        Err(FleetError::ReadFault) => Err(CommandError::ReadFault),
        Err(FleetError::Memory) => Err(CommandError::Memory),
    }
}
