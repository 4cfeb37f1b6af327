//! The units among the files of some folders.
ghost use Rattle.std.specs.Prelude.{◌≡◌, List, ℕ, IfErr, IfOk, OnOk, map};
ghost use Rattle.std.specs.BTreeMap.{get_by_text};
ghost use Rattle.std.specs.Map.{values_of};
ghost use Rattle.std.specs.Option.{option_or};
ghost use Rattle.std.specs.String.{string_bytes};
ghost use Rattle.unit_inputs.specs.host_io.Agreeing.{ForFiles};
ghost use Rattle.unit_inputs.specs.host_io.Calls.{AsksExactly};
ghost use Rattle.report_text.specs.dropin_merge.Asking.{folder_asks};
ghost use Rattle.report_text.specs.dropin_merge.Places.{locations};
ghost use Rattle.score_command.specs.fleet_command.fleet_names.Answers.{HasCause};
ghost use Rattle.score_command.specs.fleet_command.fleet_names.Asking.{course, names_asks};
ghost use Rattle.score_command.specs.fleet_command.fleet_names.Steps.{CollectsUnits, unit_among, unit_called};
ghost use Rattle.score_command.specs.declared.fleet_command.fleet_names.errors.NamesError.TheVariants.{Memory};

use crate::fleet_command::fleet_names::errors::NamesError;
use crate::fleet_command::fleet_names::listing::list_folder;
use host_io::Shelf;
use std::alloc::{AllocError, Global};
use std::collections::BTreeMap;
use unit_inputs::{NameError, UnitName};

/// The folders of units (systemd.unit(5), Unit File Load Path).
const FOLDERS: [&str; 3] = [
    "etc/systemd/system",
    "run/systemd/system",
    "usr/lib/systemd/system",
];

/// Units by the texts of their names.
pub type Units = BTreeMap<String, UnitName>;

// Takes the unit of a file's name, where the name is one.
fn take_name(alloc: Global, units: &mut Units, name: &str) -> Result<(), NamesError>
    ensures takes_the_unit { OnOk result ((q : List ℕ) → get_by_text units.new q ≡ option_or (unit_called name.now q) (get_by_text units.old q)) }
    ensures only_memory_fails { IfErr result (λ error. error ≡ Memory) }
{
    match UnitName::read(alloc, name) {
        Ok(unit) => {
            units.insert(String::from_str(alloc, name)?, unit)?;
            Ok(())
        }
        Err(NameError::BadName) => Ok(()),
        Err(NameError::Memory) => Err(NamesError::Memory),
    }
}

// Takes the units of the names of files.
fn take_names(alloc: Global, units: &mut Units, names: &[String]) -> Result<(), NamesError>
    ensures takes_the_units { OnOk result ((q : List ℕ) → get_by_text units.new q ≡ option_or (unit_among (map string_bytes names.now) q) (get_by_text units.old q)) }
    ensures only_memory_fails { IfErr result (λ error. error ≡ Memory) }
{
    for name in names {
        take_name(alloc, units, name.as_str())?;
    }
    Ok(())
}

// The units among the files of some folders.
fn collect_units<S: Shelf>(
    alloc: Global,
    shelf: &mut S,
    folders: &[&str],
) -> Result<Units, NamesError>
    ensures collects_the_units { ForFiles (S.agrees shelf.new) (λ files. CollectsUnits files (map (λ folder. folder.now) folders.now) result) }
    ensures asks_in_order { ForFiles (S.agrees shelf.new) (λ files. AsksExactly S.asks shelf.old shelf.new (folder_asks files (map (λ folder. folder.now) folders.now)) (course result)) }
    ensures answers_stay { ForFiles (S.agrees shelf.new) (S.agrees shelf.old) }
    ensures fault_rose { HasCause (S.faults shelf.old) (S.faults shelf.new) result }
{
    let mut units = BTreeMap::new(alloc);
    for folder in folders {
        let names = list_folder(alloc, shelf, folder)?;
        take_names(alloc, &mut units, names.as_slice())?;
    }
    Ok(units)
}

/// The units among the files of the folders of units.
pub fn collect_all<S: Shelf>(alloc: Global, shelf: &mut S) -> Result<Units, NamesError>
    ensures collects_the_units { ForFiles (S.agrees shelf.new) (λ files. CollectsUnits files locations result) }
    ensures asks_in_order { ForFiles (S.agrees shelf.new) (λ files. AsksExactly S.asks shelf.old shelf.new (names_asks files) (course result)) }
    ensures answers_stay { ForFiles (S.agrees shelf.new) (S.agrees shelf.old) }
    ensures fault_rose { HasCause (S.faults shelf.old) (S.faults shelf.new) result }
{
    collect_units(alloc, shelf, &FOLDERS)
}

/// The units alone, in byte order of their texts.
pub fn in_byte_order(alloc: Global, units: Units) -> Result<Vec<UnitName>, AllocError>
    ensures by_their_names { IfOk result (λ names. names.items ≡ values_of units.entries) }
{
    units.into_values().collect(alloc)
}
