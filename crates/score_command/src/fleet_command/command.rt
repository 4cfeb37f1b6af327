//! The command `fleet` and the path of a policy.
ghost use Rattle.std.specs.Prelude.{◌≡◌};
ghost use Rattle.unit_inputs.specs.host_io.Agreeing.{ForFiles};
ghost use Rattle.unit_inputs.specs.command_answers.Asking.{course};
ghost use Rattle.unit_inputs.specs.command_answers.Laws.{IsAdmitted, laws_over};
ghost use Rattle.unit_inputs.specs.command_answers.CommandErrors.{HasReadCause};
ghost use Rattle.unit_inputs.specs.Asking.{AsksInOrder};
ghost use Rattle.score_command.specs.fleet_command.Asking.{fleet_asks};
ghost use Rattle.score_command.specs.fleet_command.Prints.{status_of, fleet_laws, text_of};

use crate::fleet_command::preparing::read_all;
use crate::fleet_command::ready::Fleet;
use crate::fleet_command::reporting::report;
use host_io::Shelf;
use report_text::{CustomTest, Stored};
use std::alloc::Global;
use unit_inputs::command_answers::CommandError;

/// Prepares `fleet` and the path of a policy. It lists the units, reads calls.txt, site.toml and the policy, and finds the
/// first refusal of these. Then it scores the units in byte order of their names.
///
/// A host with more than 1,024 units, or a policy without weight, is refused before a unit is read. A refused unit is a row
/// like the others.
pub fn prepare<S: Shelf>(
    alloc: Global,
    shelf: &mut S,
    path: &str,
    tests: &[CustomTest],
) -> Result<Fleet, CommandError>
    ensures prepares { IsAdmitted (laws_over (S.agrees shelf.new) (fleet_laws path.now (⟦<CustomTest as Stored>⟧.stored tests.now))) status_of text_of result }
    ensures asks_in_order { AsksInOrder S.asks (S.agrees shelf.new) (λ files. fleet_asks files path.now (⟦<CustomTest as Stored>⟧.stored tests.now)) shelf.old shelf.new (course result) }
    ensures answers_stay { ForFiles (S.agrees shelf.new) (S.agrees shelf.old) }
    ensures fault_rose { HasReadCause (S.faults shelf.old) (S.faults shelf.new) result }
{
    let inputs = read_all(alloc, shelf, path)?;
    let rows = report(alloc, shelf, path, &inputs, tests)?;
    Ok(Fleet { rows })
}
