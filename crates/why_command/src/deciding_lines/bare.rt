//! All assignments in force, but those that say what is launched.
ghost use Rattle.std.specs.Prelude.{◌≡◌, ◌++◌, IfOk, OnOk};
ghost use Rattle.why_command.specs.deciding_lines.Bare.{bare_places, is_command, is_identity, is_other, is_power, is_user, place_if, places_of};

use crate::deciding_lines::unit_lines::{UnitLine, lines};
use asked_service::{Place, Resolved};
use std::alloc::{AllocError, Global};

// Whether a line says what is launched.
fn is_command(line: &UnitLine) -> bool
    ensures { result ≡ is_command line.now }
{
    line.key.as_str() == "ExecStart"
}

// Whether it says as whom the service runs.
fn is_user(line: &UnitLine) -> bool
    ensures { result ≡ is_user line.now }
{
    let key = line.key.as_str();
    key == "User" || key == "Group" || key == "DynamicUser" || key == "SupplementaryGroups"
}

// Whether it says which privileges the service has or can get.
fn is_power(line: &UnitLine) -> bool
    ensures { result ≡ is_power line.now }
{
    let key = line.key.as_str();
    key == "NoNewPrivileges" || key == "CapabilityBoundingSet" || key == "AmbientCapabilities"
}

fn is_identity(line: &UnitLine) -> bool
    ensures { result ≡ is_identity line.now }
{
    is_user(line) || is_power(line)
}

fn is_other(line: &UnitLine) -> bool
    ensures { result ≡ is_other line.now }
{
    !is_command(line) && !is_identity(line)
}

// Adds the place of a line, if it is one of those that are wanted.
fn push_if(places: &mut Vec<Place>, line: &UnitLine, is_wanted: bool) -> Result<(), AllocError>
    ensures { OnOk result (places.new.items ≡ places.old.items ++ place_if is_wanted line.now) }
{
    if is_wanted {
        places.push(line.place)?;
    }
    Ok(())
}

// Adds the places of the lines that say who the service is and what it may.
fn push_identities(places: &mut Vec<Place>, lines: &[UnitLine]) -> Result<(), AllocError>
    ensures { OnOk result (places.new.items ≡ places.old.items ++ places_of is_identity lines.now) }
{
    for line in lines {
        push_if(places, line, is_identity(line))?;
    }
    Ok(())
}

// Adds the places of the lines that neither say this nor what is launched.
fn push_others(places: &mut Vec<Place>, lines: &[UnitLine]) -> Result<(), AllocError>
    ensures { OnOk result (places.new.items ≡ places.old.items ++ places_of is_other lines.now) }
{
    for line in lines {
        push_if(places, line, is_other(line))?;
    }
    Ok(())
}

/// Lists the places of all assignments in force of a unit, but those to ExecStart=. Last are
/// those that say who the service is and which privileges it has, because `why` puts lines back from the last to the first.
/// What is left then names the setting that denies a question to this user, and not the user.
pub fn bare_places(alloc: Global, unit: &Resolved) -> Result<Vec<Place>, AllocError>
    ensures all_but_the_command { IfOk result (λ places. places.items ≡ bare_places unit.now) }
{
    let lines = lines(alloc, unit)?;
    let mut places = Vec::new(alloc);
    push_others(&mut places, &lines)?;
    push_identities(&mut places, &lines)?;
    Ok(places)
}
