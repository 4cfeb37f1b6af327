//! Adds the settings of a unit to its inputs.
ghost use Rattle.std.specs.Prelude.{◌≡◌, IfOk, IsErrOf, Some};
ghost use Rattle.exec_settings.specs.host_io.Agreeing.{ForFiles};
ghost use Rattle.unit_inputs.specs.command_answers.Asking.{course};
ghost use Rattle.unit_inputs.specs.command_answers.CommandErrors.{Prepares};
ghost use Rattle.unit_inputs.specs.Inputs.{inputs_of, inputs_view};
ghost use Rattle.unit_inputs.specs.Asking.{AsksInOrder, input_asks};
ghost use Rattle.unit_inputs.specs.ReadsFor.{ReadsFor};
ghost use Rattle.unit_inputs.specs.Settled.{AreSettled, refusals_of, unit_refusals};

use crate::command_answers::{CommandError, boxed, refuse};
use crate::inputs::{UnitInputs, read_inputs};
use crate::refusals::settings_line;
use exec_settings::{Settings, SettingsError, settings};
use host_io::Shelf;
use std::alloc::Global;

/// A unit with its settings.
#[derive(Drop)]
pub struct SettledUnit {
    /// The unit, the table of calls and the site.
    pub inputs: UnitInputs,
    /// The settings of the unit by that table and that site.
    pub settings: Box<Settings>,
}

// Returns the settings of the unit, or the line of the first setting that is refused.
fn settings_in(
    alloc: Global,
    unit: &str,
    inputs: &UnitInputs,
) -> Result<Box<Settings>, CommandError>
    ensures settles { Prepares (λ settings. AreSettled (inputs_view inputs.now) settings.value) (refusals_of unit.now (inputs_view inputs.now)) result }
    ensures reads_nothing { IsErrOf result CommandError.ReadFault → ⊥ }
{
    match settings(alloc, &inputs.unit, &inputs.calls, &inputs.site) {
        Ok(settings) => boxed(alloc, settings),
        Err(SettingsError::Memory) => Err(CommandError::Memory),
        Err(error) => Err(refuse(settings_line(alloc, unit, &error))),
    }
}

/// Adds the settings to the inputs of the unit of this name. The first setting that is refused (`exec_settings`) ends the
/// command with its line. This step reads no file.
pub fn settle(alloc: Global, unit: &str, inputs: UnitInputs) -> Result<SettledUnit, CommandError>
    ensures settles { Prepares (λ one. (one.inputs ≡ inputs) × AreSettled (inputs_view inputs) one.settings.value) (refusals_of unit.now (inputs_view inputs)) result }
    ensures reads_nothing { IsErrOf result CommandError.ReadFault → ⊥ }
{
    let settings = settings_in(alloc, unit, &inputs)?;
    Ok(SettledUnit { inputs, settings })
}

/// Reads the inputs of a unit and takes its settings from them, for a command that reads nothing in between.
///
/// The first refusal decides: of an input (`read_inputs`), and then of a setting. `ReadFault` means that the shelf's count of
/// faults rose. A text that is no name of a service is refused without a read.
pub fn settle_unit<S: Shelf>(
    alloc: Global,
    shelf: &mut S,
    unit: &str,
) -> Result<SettledUnit, CommandError>
    ensures settles_by_the_files { ForFiles (S.agrees shelf.new) (λ files. Prepares (λ one. inputs_of files unit.now ≡ Some (inputs_view one.inputs)) (unit_refusals files unit.now) result) }
    ensures has_settings { IfOk result (λ one. AreSettled (inputs_view one.inputs) one.settings.value) }
    ensures asks_in_order { AsksInOrder S.asks (S.agrees shelf.new) (λ files. input_asks files unit.now) shelf.old shelf.new (course result) }
    ensures reads_for_the_unit { ReadsFor S.agrees S.faults unit.now shelf.old shelf.new result }
{
    let inputs = read_inputs(alloc, shelf, unit)?;
    settle(alloc, unit, inputs)
}
