//! The command `why` and the name of a unit alone.
ghost use Rattle.asked_service.specs.unit_inputs.command_answers.Asking.{course};
ghost use Rattle.asked_service.specs.unit_inputs.command_answers.Laws.{IsAdmitted, laws_over};
ghost use Rattle.asked_service.specs.unit_inputs.Asking.{AsksInOrder, input_asks};
ghost use Rattle.asked_service.specs.unit_inputs.ReadsFor.{ReadsFor};
ghost use Rattle.asked_service.specs.unit_inputs.command_answers.ReadyTexts.{status_of, text_of};
ghost use Rattle.why_command.specs.lines_command.Prints.{lines_laws};

use crate::lines_command::answering::answer;
use asked_service::{CommandError, ReadyText, read_inputs};
use host_io::Shelf;
use std::alloc::Global;

/// Prepares `why` and the name of a unit.
///
/// It reads the unit, calls.txt and site.toml, and finds the first refusal of them and of the settings and paths of the unit.
/// Otherwise it makes the text of each line and of what that denies by itself.
pub fn prepare<S: Shelf>(
    alloc: Global,
    shelf: &mut S,
    unit: &str,
) -> Result<ReadyText, CommandError>
    ensures prepares { IsAdmitted (laws_over (S.agrees shelf.new) (lines_laws unit.now)) status_of text_of result }
    ensures asks_in_order { AsksInOrder S.asks (S.agrees shelf.new) (λ files. input_asks files unit.now) shelf.old shelf.new (course result) }
    ensures reads_for_the_unit { ReadsFor S.agrees S.faults unit.now shelf.old shelf.new result }
{
    let inputs = read_inputs(alloc, shelf, unit)?;
    answer(alloc, unit, &inputs.unit, &inputs.calls, &inputs.site)
}
