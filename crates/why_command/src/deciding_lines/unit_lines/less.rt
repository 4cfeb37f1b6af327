//! A unit without some of its assignments in force.
ghost use Rattle.std.specs.Prelude.{◌≡◌, ◌++◌, ◌∷◌, [], filter, map, not, if◌then◌else◌, IfOk, IfSome, OnOk};
ghost use Rattle.std.specs.List.{enumerate_from};
ghost use Rattle.why_command.specs.deciding_lines.unit_lines.Seen.{IsSeen};
ghost use Rattle.why_command.specs.deciding_lines.unit_lines.Without.{all_but, file_without, is_taken, kept_of, left_of, without};

use crate::deciding_lines::unit_lines::in_force::{Seen, is_in_force_after};
use crate::deciding_lines::unit_lines::place_set::PlaceSet;
use asked_service::{
    Assignment, Assignments, Place, Resolved, Text, UnitFile, UnitFiles, UnitText, Version,
};
use std::alloc::{AllocError, Global};

/// These places, but for some of them.
pub(crate) fn all_but(
    alloc: Global,
    some: &[Place],
    places: &[Place],
) -> Result<Vec<Place>, AllocError>
    ensures the_others { IfOk result (λ others. others.items ≡ all_but some.now places.now) }
{
    let some = PlaceSet::of(alloc, some)?;
    let mut others = Vec::new(alloc);
    for place in places {
        if !some.contains(*place) {
            others.push(*place)?;
        }
    }
    Ok(others)
}

/// Whether an assignment is taken away.
struct Taking<'a> {
    is_taken: bool,
    // The last assignment that was looked at.
    seen: Option<Seen<'a>>,
}

// Looks whether an assignment of the file of this number is taken away. Only if its place is among the places, its key matters.
fn take<'a>(
    systemd: Option<Version>,
    places: &PlaceSet<'_>,
    number: usize,
    seen: Option<Seen<'a>>,
    assignment: &'a Assignment,
) -> Taking<'a>
    requires before { IfSome seen (IsSeen systemd) }
    ensures takes { result.is_taken ≡ is_taken systemd places.now number assignment.now }
    ensures seen { IfSome result.seen (IsSeen systemd) }
{
    let place = Place {
        file: number,
        line: assignment.line,
    };
    if !places.contains(place) {
        return Taking {
            is_taken: false,
            seen,
        };
    }
    let is_in_force = is_in_force_after(systemd, seen, assignment);
    Taking {
        is_taken: is_in_force,
        seen: Some(Seen {
            assignment,
            is_in_force,
        }),
    }
}

// The same assignment once more.
fn copied(alloc: Global, assignment: &Assignment) -> Result<Assignment, AllocError>
    ensures { IfOk result (λ copy. copy ≡ assignment.now) }
{
    Ok(Assignment {
        section: Text::new(alloc, assignment.section.as_str())?,
        key: Text::new(alloc, assignment.key.as_str())?,
        value: Text::new(alloc, assignment.value.as_str())?,
        line: assignment.line,
    })
}

// Keeps an assignment, unless it is taken away.
fn keep_unless(
    alloc: Global,
    kept: &mut Vec<Assignment>,
    is_taken: bool,
    assignment: &Assignment,
) -> Result<(), AllocError>
    ensures { OnOk result (kept.new.items ≡ kept.old.items ++ (if is_taken then [] else assignment.now ∷ [])) }
{
    if !is_taken {
        kept.push(copied(alloc, assignment)?)?;
    }
    Ok(())
}

// Keeps it or not, and returns the last assignment that was looked at.
fn keep_if_left<'a>(
    alloc: Global,
    kept: &mut Vec<Assignment>,
    systemd: Option<Version>,
    places: &PlaceSet<'_>,
    number: usize,
    seen: Option<Seen<'a>>,
    assignment: &'a Assignment,
) -> Result<Option<Seen<'a>>, AllocError>
    requires before { IfSome seen (IsSeen systemd) }
    ensures keeps { OnOk result (kept.new.items ≡ kept.old.items ++ kept_of systemd places.now number assignment.now) }
    ensures seen { IfOk result (λ next. IfSome next (IsSeen systemd)) }
{
    let Taking { is_taken, seen } = take(systemd, places, number, seen, assignment);
    keep_unless(alloc, kept, is_taken, assignment)?;
    Ok(seen)
}

// The assignments of the file of this number that are left.
fn left_of(
    alloc: Global,
    systemd: Option<Version>,
    places: &PlaceSet<'_>,
    number: usize,
    assignments: &[Assignment],
) -> Result<Vec<Assignment>, AllocError>
    ensures { IfOk result (λ left. left.items ≡ left_of systemd places.now number assignments.now) }
{
    let mut kept = Vec::new(alloc);
    let mut seen = None;
    for assignment in assignments {
        seen = keep_if_left(alloc, &mut kept, systemd, places, number, seen, assignment)?;
    }
    Ok(kept)
}

// The file of this number without them.
fn file_without(
    alloc: Global,
    systemd: Option<Version>,
    places: &PlaceSet<'_>,
    number: usize,
    file: &UnitFile,
) -> Result<UnitFile, AllocError>
    ensures { IfOk result (λ less. less ≡ file_without systemd places.now (number, file.now)) }
{
    let left = left_of(alloc, systemd, places, number, file.text.assignments.list())?;
    Ok(UnitFile {
        path: Text::new(alloc, file.path.as_str())?,
        text: UnitText {
            assignments: Assignments::new(left),
            notes: file.text.notes.copy(alloc)?,
        },
    })
}

// The files without them.
fn files_without(
    alloc: Global,
    systemd: Option<Version>,
    places: &PlaceSet<'_>,
    files: &[UnitFile],
) -> Result<Vec<UnitFile>, AllocError>
    ensures { IfOk result (λ less. less.items ≡ map (file_without systemd places.now) (enumerate_from 0 files.now)) }
{
    let mut less = Vec::new(alloc);
    for number in 0..files.len() {
        less.push(file_without(alloc, systemd, places, number, &files[number])?)?;
    }
    Ok(less)
}

/// The same unit, whose files lack the assignments in force at these places. All else stays: its name, the paths of its files, what
/// is noted of them, the other lines with their numbers.
#[tactic(auto, unfolding(crate::specs::deciding_lines::unit_lines::Without::without))]
pub fn without(alloc: Global, unit: &Resolved, places: &[Place]) -> Result<Resolved, AllocError>
    ensures lacks_them { IfOk result (λ less. less ≡ without places.now unit.now) }
{
    let places = PlaceSet::of(alloc, places)?;
    let files = files_without(alloc, unit.systemd, &places, unit.files.list())?;
    Ok(Resolved {
        name: unit.name.copy(alloc)?,
        files: UnitFiles::new(files),
        systemd: unit.systemd,
    })
}
