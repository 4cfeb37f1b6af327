// Lists the names in a folder of drop-ins.
ghost use Rattle.std.specs.Prelude.{◌≡◌, ◌∷◌, []};
ghost use Rattle.host_io.specs.Agreeing.{ForFiles};
ghost use Rattle.host_io.specs.Calls.{NamesIn, AsksExactly};
ghost use Rattle.host_io.specs.Causes.{StaysUnless};
ghost use Rattle.host_io.specs.Files.{names_in};
ghost use Rattle.dropin_merge.specs.Answers.{HasCause};
ghost use Rattle.dropin_merge.specs.Asking.{course};
ghost use Rattle.dropin_merge.specs.Steps.{ListsPlace, RefusesAt};
ghost use Rattle.dropin_merge.specs.declared.errors.ResolveError.TheVariants.{ReadFault};

use crate::errors::ResolveError;
use host_io::{Shelf, ShelfError};
use std::alloc::Global;

/// Returns the names of the files directly in a folder, or no names if the folder is missing.
pub fn list_place<S: Shelf>(
    alloc: Global,
    shelf: &mut S,
    place: &str,
) -> Result<Vec<String>, ResolveError>
    ensures refuses_no_path { RefusesAt (λ _. ⊥) result }
    ensures lists_the_folder { ForFiles (S.agrees shelf.new) (λ files. ListsPlace (names_in files place.now) result) }
    ensures asks_for_it { AsksExactly S.asks shelf.old shelf.new (NamesIn place.now ∷ []) (course result) }
    ensures answers_stay { ForFiles (S.agrees shelf.new) (S.agrees shelf.old) }
    ensures fault_rose { HasCause (S.faults shelf.old) (S.faults shelf.new) result }
    ensures no_other_fault { StaysUnless ReadFault (S.faults shelf.old) (S.faults shelf.new) result }
{
    match shelf.list(alloc, place) {
        Ok(names) => Ok(names),
        Err(ShelfError::Missing) => Ok(Vec::new(alloc)),
        Err(ShelfError::TooLarge) => Err(ResolveError::DropIns),
        Err(ShelfError::Failed) => Err(ResolveError::ReadFault),
        Err(ShelfError::Memory) => Err(ResolveError::Memory),
    }
}
