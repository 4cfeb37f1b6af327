// Lists the places where the files of a unit may lie.
ghost use Rattle.std.specs.Prelude.{◌≡◌, ◌++◌, IfOk, OnOk, map};
ghost use Rattle.std.specs.String.{string_bytes};
ghost use Rattle.dropin_merge.specs.Places.{below, in_locations, fragment_paths, dropin_places};

use std::alloc::{AllocError, Global};
use unit_names::{UnitName, dropin_folders};

/// The folders of unit files. A file in an earlier folder takes precedence.
const LOCATIONS: [&str; 3] = [
    "etc/systemd/system",
    "run/systemd/system",
    "usr/lib/systemd/system",
];

/// Returns the path of a name directly in a folder.
pub fn path_below(alloc: Global, folder: &str, name: &str) -> Result<String, AllocError>
    ensures joined { IfOk result (λ path. string_bytes path ≡ below folder.now name.now) }
{
    format!(in alloc; "{folder}/{name}")
}

// Appends the path of a name in each of some folders.
fn push_paths(
    alloc: Global,
    paths: &mut Vec<String>,
    folders: &[&str],
    name: &str,
) -> Result<(), AllocError>
    ensures { OnOk result (map string_bytes paths.new.items ≡ map string_bytes paths.old.items ++ map (λ folder. below folder.now name.now) folders.now) }
{
    for folder in folders {
        paths.push(path_below(alloc, folder, name)?)?;
    }
    Ok(())
}

// Appends the path of a name in each of the locations.
fn push_locations(alloc: Global, paths: &mut Vec<String>, name: &str) -> Result<(), AllocError>
    ensures { OnOk result (map string_bytes paths.new.items ≡ map string_bytes paths.old.items ++ in_locations name.now) }
{
    push_paths(alloc, paths, &LOCATIONS, name)
}

/// Returns the paths at which systemd looks for the fragment of a unit, in this order.
pub fn fragment_paths(alloc: Global, unit: &UnitName) -> Result<Vec<String>, AllocError>
    ensures in_order { IfOk result (λ paths. map string_bytes paths.items ≡ fragment_paths unit.now) }
{
    let mut paths = Vec::new(alloc);
    push_locations(alloc, &mut paths, unit.text())?;
    if let Some(template) = unit.template(alloc)? {
        push_locations(alloc, &mut paths, template.as_str())?;
    }
    Ok(paths)
}

/// Returns the folders of a unit's drop-ins in the locations, by their rank.
pub fn dropin_places(alloc: Global, unit: &UnitName) -> Result<Vec<String>, AllocError>
    ensures in_order { IfOk result (λ places. map string_bytes places.items ≡ dropin_places unit.now) }
{
    let folders = dropin_folders(alloc, unit)?;
    let mut places = Vec::new(alloc);
    for folder in &folders {
        push_locations(alloc, &mut places, folder.as_str())?;
    }
    Ok(places)
}
