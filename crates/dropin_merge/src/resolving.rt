// Resolves a unit over a shelf.
ghost use Rattle.std.specs.Prelude.{◌≡◌, ◌↔◌, List, ℕ, Some, IfOk};
ghost use Rattle.host_io.specs.Agreeing.{ForFiles};
ghost use Rattle.host_io.specs.Calls.{AsksExactly};
ghost use Rattle.host_io.specs.Causes.{StaysUnless};
ghost use Rattle.host_io.specs.Files.{Files};
ghost use Rattle.unit_names.specs.Names.{Name};
ghost use Rattle.dropin_merge.specs.Answers.{AreUnitFiles, HasCause, IsUnitPath, IsUnlessFailed, LiesInPlaces, NamesUnit};
ghost use Rattle.dropin_merge.specs.Asking.{course, resolve_asks, unit_asks};
ghost use Rattle.dropin_merge.specs.Ranks.{AreWinners};
ghost use Rattle.dropin_merge.specs.Resolving.{for_unit, resolved_of};
ghost use Rattle.dropin_merge.specs.Steps.{RefusesAt};
ghost use Rattle.dropin_merge.specs.Winners.{winners_of};
ghost use Rattle.dropin_merge.specs.declared.errors.ResolveError.TheVariants.{ReadFault};

use crate::dropins::read_files;
use crate::errors::ResolveError;
use crate::fragment::read_fragment;
use crate::places::fragment_paths;
use crate::resolved::Resolved;
use host_io::Shelf;
use std::alloc::Global;
use unit_names::{NameError, UnitName};

// Returns a unit with the files in force of its name.
fn resolve_unit<S: Shelf>(
    alloc: Global,
    shelf: &mut S,
    unit: UnitName,
) -> Result<Resolved, ResolveError>
    ensures is_the_unit { IfOk result (λ resolved. resolved.name ≡ unit) }
    ensures has_its_files { IfOk result (λ resolved. AreUnitFiles unit resolved.files) }
    ensures refuses_a_file { RefusesAt (IsUnitPath unit) result }
    ensures resolves_by_the_files { ForFiles (S.agrees shelf.new) (λ files. IsUnlessFailed result (for_unit files (Some unit))) }
    ensures asks_in_order { ForFiles (S.agrees shelf.new) (λ files. AsksExactly S.asks shelf.old shelf.new (unit_asks files unit) (course result)) }
    ensures answers_stay { ForFiles (S.agrees shelf.new) (S.agrees shelf.old) }
    ensures fault_rose { HasCause (S.faults shelf.old) (S.faults shelf.new) result }
    ensures no_other_fault { StaysUnless ReadFault (S.faults shelf.old) (S.faults shelf.new) result }
{
    let paths = fragment_paths(alloc, &unit)?;
    let fragment = read_fragment(alloc, shelf, paths.as_slice())?;
    let files = read_files(alloc, shelf, &unit, fragment)?;
    Ok(Resolved {
        name: unit,
        files,
        systemd: None,
    })
}

// Returns the unit that a text names.
fn resolve_text<S: Shelf>(
    alloc: Global,
    shelf: &mut S,
    text: &str,
) -> Result<Resolved, ResolveError>
    ensures resolves_by_the_files { ForFiles (S.agrees shelf.new) (λ files. IsUnlessFailed result (resolved_of files text.now)) }
    ensures names_the_unit { NamesUnit text.now result }
    ensures lies_in_its_places { LiesInPlaces text.now result }
    ensures asks_in_order { ForFiles (S.agrees shelf.new) (λ files. AsksExactly S.asks shelf.old shelf.new (resolve_asks files text.now) (course result)) }
    ensures answers_stay { ForFiles (S.agrees shelf.new) (S.agrees shelf.old) }
    ensures fault_rose { HasCause (S.faults shelf.old) (S.faults shelf.new) result }
    ensures no_other_fault { StaysUnless ReadFault (S.faults shelf.old) (S.faults shelf.new) result }
{
    match UnitName::read(alloc, text) {
        Ok(unit) => resolve_unit(alloc, shelf, unit),
        Err(NameError::BadName) => Err(ResolveError::BadName),
        Err(NameError::Memory) => Err(ResolveError::Memory),
    }
}

/// Resolves a unit: finds its fragment and its drop-ins, and reads them.
///
/// systemd.unit(5), Unit File Load Path and Description, has the rules. The fragment is the first file of the name, or else
/// of its template, in `etc/systemd/system`, `run/systemd/system` and `usr/lib/systemd/system`. Drop-ins are the files that
/// end in `.conf` in the folders of the name, in each of these locations. If two drop-ins have the same file name, the more
/// specific folder wins, and then the earlier location. Drop-ins follow the fragment in byte order of file names. An empty
/// drop-in contributes nothing, but still hides the others of its name.
///
/// The first of these faults refuses the unit:
/// - `BadName`: the text is no name of a service;
/// - `NotFound`: no location has a fragment of the name or of its template;
/// - `TooLarge`: the fragment has more than 1 MiB;
/// - `Masked`: the fragment has zero bytes;
/// - `Text`: the text of the fragment is refused;
/// - `DropIns`: a folder in one location has more than 4,096 files, or more than 256 drop-ins win;
/// - `TooLarge` or `Text` of a drop-in, in order.
///
/// Each file is judged before the next is read. The shelf is called for these, in this order:
/// - the paths of the fragment, up to the first that exists;
/// - the folders of drop-ins;
/// - the winning drop-ins, up to the first that is refused.
///
/// `ReadFault` means that the shelf's count of faults rose; any other answer leaves the count. A drop-in contributes nothing
/// if the shelf lists it and then answers `Missing`.
pub fn resolve<S: Shelf>(alloc: Global, shelf: &mut S, name: &str) -> Result<Resolved, ResolveError>
    ensures resolves_by_the_files { ForFiles (S.agrees shelf.new) (λ files. IsUnlessFailed result (resolved_of files name.now)) }
    ensures names_the_unit { NamesUnit name.now result }
    ensures lies_in_its_places { LiesInPlaces name.now result }
    ensures asks_in_order { ForFiles (S.agrees shelf.new) (λ files. AsksExactly S.asks shelf.old shelf.new (resolve_asks files name.now) (course result)) }
    ensures answers_stay { ForFiles (S.agrees shelf.new) (S.agrees shelf.old) }
    ensures fault_rose { HasCause (S.faults shelf.old) (S.faults shelf.new) result }
    ensures no_other_fault { StaysUnless ReadFault (S.faults shelf.old) (S.faults shelf.new) result }
    // Of all drop-ins of the map with one file name, the drop-in of least rank wins.
    ensures winning_is_by_rank { (files : Files) (unit : Name) (winners : List (List ℕ × List ℕ)) → (winners_of files unit ≡ winners) ↔ AreWinners files unit winners }
{
    resolve_text(alloc, shelf, name)
}
