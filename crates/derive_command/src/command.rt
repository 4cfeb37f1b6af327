//! The command `derive`, the name of a unit and the path of a script.

ghost use Rattle.asked_service.specs.unit_inputs.command_answers.Asking.{course};
ghost use Rattle.asked_service.specs.unit_inputs.command_answers.Laws.{IsAdmitted, laws_over};
ghost use Rattle.asked_service.specs.unit_inputs.Asking.{AsksInOrder, asks_with_file};
ghost use Rattle.asked_service.specs.unit_inputs.ReadsFor.{ReadsFor};
ghost use Rattle.asked_service.specs.unit_inputs.command_answers.ReadyTexts.{status_of, text_of};
ghost use Rattle.derive_command.specs.Prints.{derive_laws};

use crate::answering::answer;
use asked_service::{CommandError, ReadyText, read_inputs, read_script};
use host_io::Shelf;
use std::alloc::Global;

/// Prepares `derive`, the name of a unit and the path of a script.
///
/// It reads the unit, calls.txt, site.toml and the script. It finds the first refusal of them, of the script's calls, and of the
/// unit that allows every call. Otherwise it derives the list.
pub fn prepare<S: Shelf>(
    alloc: Global,
    shelf: &mut S,
    unit: &str,
    script: &str,
) -> Result<ReadyText, CommandError>
    ensures prepares { IsAdmitted (laws_over (S.agrees shelf.new) (derive_laws unit.now script.now)) status_of text_of result }
    ensures asks_in_order { AsksInOrder S.asks (S.agrees shelf.new) (λ files. asks_with_file files unit.now script.now) shelf.old shelf.new (course result) }
    ensures reads_for_the_unit { ReadsFor S.agrees S.faults unit.now shelf.old shelf.new result }
{
    let inputs = read_inputs(alloc, shelf, unit)?;
    let made = read_script(alloc, shelf, script, &inputs.calls)?;
    answer(
        alloc,
        unit,
        script,
        &inputs.unit,
        &inputs.calls,
        &inputs.site,
        &made,
    )
}
