// Reads the drop-ins of a unit after its fragment.
ghost use Rattle.std.specs.Prelude.{◌≡◌, ◌∷◌, ◌++◌, [], IfOk, OnOk, length, map};
ghost use Rattle.std.specs.List.{Contains};
ghost use Rattle.std.specs.String.{string_bytes};
ghost use Rattle.host_io.specs.Agreeing.{ForFiles};
ghost use Rattle.host_io.specs.Calls.{AsksExactly};
ghost use Rattle.host_io.specs.Causes.{StaysUnless};
ghost use Rattle.dropin_merge.specs.Answers.{HasCause, IsDropinPath, IsUnlessFailed};
ghost use Rattle.dropin_merge.specs.Asking.{behind_fragment, course, dropin_asks};
ghost use Rattle.dropin_merge.specs.Places.{dropin_places};
ghost use Rattle.dropin_merge.specs.Resolving.{dropins_read, files_of, joined_by};
ghost use Rattle.dropin_merge.specs.Steps.{IsLedBy, RefusesAt};
ghost use Rattle.dropin_merge.specs.declared.errors.ResolveError.TheVariants.{ReadFault};

use crate::errors::ResolveError;
use crate::files::{Found, file_at};
use crate::places::dropin_places;
use crate::resolved::UnitFile;
use crate::unit_files::UnitFiles;
use crate::winners::{collect_winners, winning_paths};
use host_io::Shelf;
use std::alloc::{AllocError, Global};
use unit_names::UnitName;

/// The most drop-ins of a unit.
const MOST_DROPINS: usize = 256;

// Keeps a file after the others.
fn keep_file(files: &mut Vec<UnitFile>, file: UnitFile) -> Result<(), AllocError>
    ensures { OnOk result (files.new.items ≡ files.old.items ++ file ∷ []) }
{
    files.push(file)?;
    Ok(())
}

// Returns a fragment and, after it, the drop-ins at these paths.
fn read_dropins<S: Shelf>(
    alloc: Global,
    shelf: &mut S,
    fragment: UnitFile,
    paths: &[String],
) -> Result<UnitFiles, ResolveError>
    ensures has_the_paths { IfOk result (IsLedBy (λ file. Contains (map string_bytes paths.now) file.path) fragment (length paths.now)) }
    ensures refuses_a_path { RefusesAt (Contains (map string_bytes paths.now)) result }
    ensures reads_in_order { ForFiles (S.agrees shelf.new) (λ files. IsUnlessFailed result (joined_by (fragment ∷ []) (dropins_read files (map string_bytes paths.now)))) }
    ensures asks_in_order { ForFiles (S.agrees shelf.new) (λ files. AsksExactly S.asks shelf.old shelf.new (dropin_asks files (map string_bytes paths.now)) (course result)) }
    ensures answers_stay { ForFiles (S.agrees shelf.new) (S.agrees shelf.old) }
    ensures fault_rose { HasCause (S.faults shelf.old) (S.faults shelf.new) result }
    ensures no_other_fault { StaysUnless ReadFault (S.faults shelf.old) (S.faults shelf.new) result }
{
    let mut files = Vec::new(alloc);
    keep_file(&mut files, fragment)?;
    for path in paths {
        if let Found::Says(dropin) = file_at(alloc, shelf, path.as_str())? {
            keep_file(&mut files, dropin)?;
        }
    }
    Ok(UnitFiles::new(files))
}

/// Returns the files in force of a unit, given its fragment.
pub fn read_files<S: Shelf>(
    alloc: Global,
    shelf: &mut S,
    unit: &UnitName,
    fragment: UnitFile,
) -> Result<UnitFiles, ResolveError>
    ensures has_the_dropins { IfOk result (IsLedBy (λ file. IsDropinPath (dropin_places unit.now) file.path) fragment 256) }
    ensures refuses_a_dropin { RefusesAt (IsDropinPath (dropin_places unit.now)) result }
    ensures reads_the_files { ForFiles (S.agrees shelf.new) (λ files. IsUnlessFailed result (files_of files unit.now fragment)) }
    ensures asks_in_order { ForFiles (S.agrees shelf.new) (λ files. AsksExactly S.asks shelf.old shelf.new (behind_fragment files unit.now) (course result)) }
    ensures answers_stay { ForFiles (S.agrees shelf.new) (S.agrees shelf.old) }
    ensures fault_rose { HasCause (S.faults shelf.old) (S.faults shelf.new) result }
    ensures no_other_fault { StaysUnless ReadFault (S.faults shelf.old) (S.faults shelf.new) result }
{
    let places = dropin_places(alloc, unit)?;
    let winners = collect_winners(alloc, shelf, places.as_slice())?;
    if winners.len() > MOST_DROPINS {
        return Err(ResolveError::DropIns);
    }
    let paths = winning_paths(alloc, winners)?;
    read_dropins(alloc, shelf, fragment, paths.as_slice())
}
