// Reads the fragment of a unit.
ghost use Rattle.std.specs.Prelude.{◌≡◌, IfOk, map};
ghost use Rattle.std.specs.List.{Contains};
ghost use Rattle.std.specs.String.{string_bytes};
ghost use Rattle.host_io.specs.Agreeing.{ForFiles};
ghost use Rattle.host_io.specs.Calls.{AsksExactly};
ghost use Rattle.host_io.specs.Causes.{StaysUnless};
ghost use Rattle.dropin_merge.specs.Answers.{HasCause, IsUnlessFailed};
ghost use Rattle.dropin_merge.specs.Asking.{course, fragment_asks};
ghost use Rattle.dropin_merge.specs.Resolving.{fragment_of, fragment_read};
ghost use Rattle.dropin_merge.specs.Steps.{RefusesAt};
ghost use Rattle.dropin_merge.specs.declared.errors.ResolveError.TheVariants.{ReadFault};

use crate::errors::ResolveError;
use crate::files::{Found, file_at};
use crate::resolved::UnitFile;
use host_io::Shelf;
use std::alloc::Global;

/// Reads the first of these paths that exists.
pub fn read_fragment<S: Shelf>(
    alloc: Global,
    shelf: &mut S,
    paths: &[String],
) -> Result<UnitFile, ResolveError>
    ensures has_a_path { IfOk result (λ file. Contains (map string_bytes paths.now) file.path) }
    ensures refuses_a_path { RefusesAt (Contains (map string_bytes paths.now)) result }
    ensures reads_the_first { ForFiles (S.agrees shelf.new) (λ files. IsUnlessFailed result (fragment_read files (fragment_of files (map string_bytes paths.now)))) }
    ensures asks_in_order { ForFiles (S.agrees shelf.new) (λ files. AsksExactly S.asks shelf.old shelf.new (fragment_asks files (map string_bytes paths.now)) (course result)) }
    ensures answers_stay { ForFiles (S.agrees shelf.new) (S.agrees shelf.old) }
    ensures fault_rose { HasCause (S.faults shelf.old) (S.faults shelf.new) result }
    ensures no_other_fault { StaysUnless ReadFault (S.faults shelf.old) (S.faults shelf.new) result }
{
    for path in paths {
        match file_at(alloc, shelf, path.as_str())? {
            Found::Missing => {}
            Found::Empty => return Err(ResolveError::Masked),
            Found::Says(fragment) => return Ok(fragment),
        }
    }
    Err(ResolveError::NotFound)
}
