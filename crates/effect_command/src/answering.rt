//! What a drop-in changes for a unit.
ghost use Rattle.std.specs.Prelude.{IsErrOf};
ghost use Rattle.asked_service.specs.unit_inputs.command_answers.CommandErrors.{Prepares};
ghost use Rattle.asked_service.specs.launching.Starting.{given};
ghost use Rattle.asked_service.specs.unit_inputs.command_answers.ReadyTexts.{status_of, text_of};
ghost use Rattle.effect_command.specs.Prints.{TellsWith};
ghost use Rattle.effect_command.specs.Refusals.{refusals_behind_dropin};

use crate::comparing::compare;
use crate::starting::{start, start_with};
use asked_service::{CallTable, CommandError, ReadyText, Resolved, SiteTable, UnitText};
use std::alloc::Global;

/// Launches the unit, and the unit with the drop-in after its files, and prints the changes; or finds the first refusal of
/// their settings and paths.
pub fn answer(
    alloc: Global,
    name: &str,
    unit: &Resolved,
    more: UnitText,
    calls: &CallTable,
    site: &SiteTable,
) -> Result<ReadyText, CommandError>
    ensures answers { Prepares (λ made. TellsWith (given unit.now calls.now site.now) more (status_of made) (text_of made)) (refusals_behind_dropin name.now (given unit.now calls.now site.now) more) result }
    ensures reads_nothing { IsErrOf result CommandError.ReadFault → ⊥ }
{
    let longer = unit.extended(alloc, more)?;
    let first = start(alloc, name, unit, calls, site)?;
    let second = start_with(alloc, name, &longer, calls, site)?;
    compare(alloc, first, second)
}
