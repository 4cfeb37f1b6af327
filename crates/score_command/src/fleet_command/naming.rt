//! The names of the units, with the line of their refusal.
ghost use Rattle.std.specs.Prelude.{◌≡◌};
ghost use Rattle.unit_inputs.specs.host_io.Agreeing.{ForFiles};
ghost use Rattle.unit_inputs.specs.command_answers.Asking.{course};
ghost use Rattle.unit_inputs.specs.command_answers.CommandErrors.{HasReadCause, IsAnswer};
ghost use Rattle.score_command.specs.fleet_command.fleet_names.Asking.{names_asks};
ghost use Rattle.unit_inputs.specs.Asking.{AsksInOrder};
ghost use Rattle.score_command.specs.fleet_command.Refusals.{names_in};

use crate::fleet_command::fleet_names::{NamesError, fleet_names};
use host_io::Shelf;
use std::alloc::Global;
use unit_inputs::UnitName;
use unit_inputs::command_answers::{CommandError, refuse, refused_line};

/// The names of the units in byte order, or the line that there are too many.
pub fn read_names<S: Shelf>(alloc: Global, shelf: &mut S) -> Result<Vec<UnitName>, CommandError>
    ensures reads_the_names { ForFiles (S.agrees shelf.new) (λ files. IsAnswer (λ names. names.items) result (names_in files)) }
    ensures asks_in_order { AsksInOrder S.asks (S.agrees shelf.new) names_asks shelf.old shelf.new (course result) }
    ensures answers_stay { ForFiles (S.agrees shelf.new) (S.agrees shelf.old) }
    ensures fault_rose { HasReadCause (S.faults shelf.old) (S.faults shelf.new) result }
{
    match fleet_names(alloc, shelf) {
        Ok(names) => Ok(names),
        Err(NamesError::TooMany) => Err(refuse(refused_line(alloc, "fleet", b"too-many"))),
        Err(NamesError::ReadFault) => Err(CommandError::ReadFault),
        Err(NamesError::Memory) => Err(CommandError::Memory),
    }
}
