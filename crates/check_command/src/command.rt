//! The command `check`, the name of a unit, the name of a filter and the path of a file.
ghost use Rattle.unit_inputs.specs.command_answers.Asking.{course};
ghost use Rattle.unit_inputs.specs.command_answers.Laws.{IsAdmitted};
ghost use Rattle.unit_inputs.specs.Asking.{AsksInOrder, asks_with_file};
ghost use Rattle.unit_inputs.specs.ReadsFor.{ReadsFor};
ghost use Rattle.check_command.specs.Checked.{checked_text, status_of};
ghost use Rattle.check_command.specs.Prints.{check_laws};

use crate::comparing::compare;
use crate::preparing::read_all;
use crate::ready::Checked;
use host_io::Shelf;
use std::alloc::Global;
use unit_inputs::command_answers::CommandError;

/// Prepares `check`, the name of a unit, the name of a filter and the path of a file. It reads the unit, calls.txt,
/// site.toml and the file, and finds the first refusal of them and of the settings. Then it compares the program of
/// the file with the filter of that name: `NAME` for the native ABI, and `NAME@ABI` for the ABI of that name. A
/// filter that is not on is refused, and so is a program that is not of the form or has more than 16,384 paths.
pub fn prepare<S: Shelf>(
    alloc: Global,
    shelf: &mut S,
    unit: &str,
    name: &str,
    path: &str,
) -> Result<Checked, CommandError>
    ensures prepares { IsAdmitted (check_laws (S.agrees shelf.new) unit.now name.now path.now) status_of checked_text result }
    ensures asks_in_order { AsksInOrder S.asks (S.agrees shelf.new) (λ files. asks_with_file files unit.now path.now) shelf.old shelf.new (course result) }
    ensures reads_for_the_unit { ReadsFor S.agrees S.faults unit.now shelf.old shelf.new result }
{
    let prepared = read_all(alloc, shelf, unit, path)?;
    compare(alloc, unit, name, path, &prepared)
}
