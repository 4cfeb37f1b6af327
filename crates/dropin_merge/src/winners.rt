// Finds the drop-ins that win their file names.
//
// The folders are listed by their rank, so the first path of a file name wins it.
ghost use Rattle.std.specs.Prelude.{◌≡◌, List, ℕ, OnOk, IfOk, map};
ghost use Rattle.std.specs.List.{Contains};
ghost use Rattle.std.specs.Map.{values_of};
ghost use Rattle.std.specs.String.{string_bytes};
ghost use Rattle.std.specs.Option.{option_or};
ghost use Rattle.host_io.specs.Agreeing.{ForFiles};
ghost use Rattle.host_io.specs.Calls.{AsksExactly};
ghost use Rattle.host_io.specs.Causes.{StaysUnless};
ghost use Rattle.dropin_merge.specs.Answers.{HasCause};
ghost use Rattle.dropin_merge.specs.Asking.{course, folder_asks};
ghost use Rattle.dropin_merge.specs.Winners.{ends_in_conf};
ghost use Rattle.dropin_merge.specs.Steps.{winner_at, at_name, at_place, CollectsWinners, KeepsTo, RefusesAt};
ghost use Rattle.dropin_merge.specs.declared.errors.ResolveError.TheVariants.{ReadFault};

use crate::errors::ResolveError;
use crate::listing::list_place;
use crate::places::path_below;
use host_io::Shelf;
use std::alloc::{AllocError, Global};
use std::collections::BTreeMap;

/// The file names, each with the path that wins it.
pub type Winners = BTreeMap<String, String>;

// Returns whether a file of this name is a drop-in.
fn counts(name: &str) -> bool
    ensures { result ≡ ends_in_conf name.now }
{
    name.as_bytes().ends_with(b".conf")
}

// Adds a file of a place, unless an earlier one has won its name.
fn take_name(
    alloc: Global,
    winners: &mut Winners,
    place: &str,
    name: &str,
) -> Result<(), AllocError>
    ensures first_wins { OnOk result ((q : List ℕ) → winner_at winners.new q ≡ option_or (winner_at winners.old q) (at_name place.now name.now q)) }
    ensures keeps_to_places { OnOk result ((places : List (List ℕ)) → Contains places place.now → KeepsTo places winners.old → KeepsTo places winners.new) }
{
    if counts(name) && !winners.contains_key(name) {
        let path = path_below(alloc, place, name)?;
        winners.insert(String::from_str(alloc, name)?, path)?;
    }
    Ok(())
}

// Adds the files of a place.
fn take_names(
    alloc: Global,
    winners: &mut Winners,
    place: &str,
    names: &[String],
) -> Result<(), AllocError>
    ensures first_wins { OnOk result ((q : List ℕ) → winner_at winners.new q ≡ option_or (winner_at winners.old q) (at_place place.now (map string_bytes names.now) q)) }
    ensures keeps_to_places { OnOk result ((places : List (List ℕ)) → Contains places place.now → KeepsTo places winners.old → KeepsTo places winners.new) }
{
    for name in names {
        take_name(alloc, winners, place, name.as_str())?;
    }
    Ok(())
}

/// Returns the winners among the drop-ins of some places, which are sorted by their rank.
pub fn collect_winners<S: Shelf>(
    alloc: Global,
    shelf: &mut S,
    places: &[String],
) -> Result<Winners, ResolveError>
    ensures keeps_to_places { IfOk result (KeepsTo (map string_bytes places.now)) }
    ensures refuses_no_path { RefusesAt (λ _. ⊥) result }
    ensures collects_the_winners { ForFiles (S.agrees shelf.new) (λ files. CollectsWinners files (map string_bytes places.now) result) }
    ensures asks_in_order { ForFiles (S.agrees shelf.new) (λ files. AsksExactly S.asks shelf.old shelf.new (folder_asks files (map string_bytes places.now)) (course result)) }
    ensures answers_stay { ForFiles (S.agrees shelf.new) (S.agrees shelf.old) }
    ensures fault_rose { HasCause (S.faults shelf.old) (S.faults shelf.new) result }
    ensures no_other_fault { StaysUnless ReadFault (S.faults shelf.old) (S.faults shelf.new) result }
{
    let mut winners = BTreeMap::new(alloc);
    for place in places {
        let names = list_place(alloc, shelf, place.as_str())?;
        take_names(alloc, &mut winners, place.as_str(), names.as_slice())?;
    }
    Ok(winners)
}

/// Returns the winning paths, in byte order of file names.
pub fn winning_paths(alloc: Global, winners: Winners) -> Result<Vec<String>, AllocError>
    ensures by_their_names { IfOk result (λ paths. paths.items ≡ values_of winners.entries) }
{
    winners.into_values().collect(alloc)
}
