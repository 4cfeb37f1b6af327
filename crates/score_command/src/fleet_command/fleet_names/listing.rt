//! The names of the files in a folder of units.
ghost use Rattle.std.specs.Prelude.{◌≡◌, ◌∷◌, []};
ghost use Rattle.unit_inputs.specs.host_io.Agreeing.{ForFiles};
ghost use Rattle.unit_inputs.specs.host_io.Calls.{NamesIn, AsksExactly};
ghost use Rattle.unit_inputs.specs.host_io.Files.{names_in};
ghost use Rattle.score_command.specs.fleet_command.fleet_names.Answers.{HasCause};
ghost use Rattle.score_command.specs.fleet_command.fleet_names.Asking.{course};
ghost use Rattle.score_command.specs.fleet_command.fleet_names.Steps.{ListsFolder};

use crate::fleet_command::fleet_names::errors::NamesError;
use host_io::{Shelf, ShelfError};
use std::alloc::Global;

/// Lists the names of the files directly in a folder. A missing folder has no files.
pub fn list_folder<S: Shelf>(
    alloc: Global,
    shelf: &mut S,
    folder: &str,
) -> Result<Vec<String>, NamesError>
    ensures lists_the_folder { ForFiles (S.agrees shelf.new) (λ files. ListsFolder (names_in files folder.now) result) }
    ensures asks_for_it { AsksExactly S.asks shelf.old shelf.new (NamesIn folder.now ∷ []) (course result) }
    ensures answers_stay { ForFiles (S.agrees shelf.new) (S.agrees shelf.old) }
    ensures fault_rose { HasCause (S.faults shelf.old) (S.faults shelf.new) result }
{
    match shelf.list(alloc, folder) {
        Ok(names) => Ok(names),
        Err(ShelfError::Missing) => Ok(Vec::new(alloc)),
        Err(ShelfError::TooLarge) => Err(NamesError::TooMany),
        Err(ShelfError::Failed) => Err(NamesError::ReadFault),
        Err(ShelfError::Memory) => Err(NamesError::Memory),
    }
}
