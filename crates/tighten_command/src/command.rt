//! The command `tighten`, the name of a unit, and the path of the questions to be kept.
ghost use Rattle.asked_service.specs.unit_inputs.command_answers.Asking.{course};
ghost use Rattle.asked_service.specs.unit_inputs.command_answers.Laws.{IsAdmitted};
ghost use Rattle.asked_service.specs.unit_inputs.Asking.{AsksInOrder, asks_with_file};
ghost use Rattle.asked_service.specs.unit_inputs.ReadsFor.{ReadsFor};
ghost use Rattle.asked_service.specs.unit_inputs.command_answers.ReadyTexts.{status_of, text_of};
ghost use Rattle.tighten_command.specs.Prints.{tighten_laws};

use crate::answering::answer;
use crate::keep_file::read_keep;
use crate::tightening::{StoredWish, Wished};
use asked_service::{CommandError, ReadyText, read_inputs};
use host_io::Shelf;
use std::alloc::Global;

/// Prepares `tighten`, the name of a unit and the path of a file of questions.
///
/// It reads the unit, calls.txt, site.toml and the file, and finds the first refusal of them. Otherwise it tightens the unit as
/// far as these questions and the wishes allow.
pub fn prepare<S: Shelf>(
    alloc: Global,
    shelf: &mut S,
    unit: &str,
    path: &str,
    wishes: &[StoredWish],
) -> Result<ReadyText, CommandError>
    ensures prepares { IsAdmitted (tighten_laws (S.agrees shelf.new) unit.now path.now (⟦<StoredWish as Wished>⟧.wished wishes.now)) status_of text_of result }
    ensures asks_in_order { AsksInOrder S.asks (S.agrees shelf.new) (λ files. asks_with_file files unit.now path.now) shelf.old shelf.new (course result) }
    ensures reads_for_the_unit { ReadsFor S.agrees S.faults unit.now shelf.old shelf.new result }
{
    let inputs = read_inputs(alloc, shelf, unit)?;
    let keep = read_keep(alloc, shelf, path, &inputs.calls, &inputs.site)?;
    answer(
        alloc,
        unit,
        &inputs.unit,
        &inputs.calls,
        &inputs.site,
        keep.list(),
        wishes,
    )
}
