//! The command `effect`, the name of a unit and the path of a drop-in.

ghost use Rattle.asked_service.specs.unit_inputs.command_answers.Asking.{course};
ghost use Rattle.asked_service.specs.unit_inputs.command_answers.Laws.{IsAdmitted, laws_over};
ghost use Rattle.asked_service.specs.unit_inputs.Asking.{AsksInOrder, asks_with_file};
ghost use Rattle.asked_service.specs.unit_inputs.ReadsFor.{ReadsFor};
ghost use Rattle.asked_service.specs.unit_inputs.command_answers.ReadyTexts.{status_of, text_of};
ghost use Rattle.effect_command.specs.Prints.{effect_laws};

use crate::answering::answer;
use crate::dropin::read_dropin;
use asked_service::{CommandError, ReadyText, read_inputs};
use host_io::Shelf;
use std::alloc::Global;

/// Prepares `effect`, the name of a unit and the path of a drop-in. It reads the unit, calls.txt, site.toml and the
/// drop-in. It finds the first refusal of them and of the settings and paths of the unit, as it is and with the
/// drop-in. Then it launches both, and gives the changes.
pub fn prepare<S: Shelf>(
    alloc: Global,
    shelf: &mut S,
    unit: &str,
    path: &str,
) -> Result<ReadyText, CommandError>
    ensures prepares { IsAdmitted (laws_over (S.agrees shelf.new) (effect_laws unit.now path.now)) status_of text_of result }
    ensures asks_in_order { AsksInOrder S.asks (S.agrees shelf.new) (λ files. asks_with_file files unit.now path.now) shelf.old shelf.new (course result) }
    ensures reads_for_the_unit { ReadsFor S.agrees S.faults unit.now shelf.old shelf.new result }
{
    let inputs = read_inputs(alloc, shelf, unit)?;
    let more = read_dropin(alloc, shelf, path)?;
    answer(alloc, unit, &inputs.unit, more, &inputs.calls, &inputs.site)
}
