// Iterates over the assignments of a unit's service that may be to a key (systemd.unit(5), systemd.service(5)).
ghost use Rattle.std.specs.Prelude.{◌≡◌, ◌∷◌, [], MatchOption};
ghost use Rattle.std.specs.List.{filter_map};
ghost use Rattle.std.specs.Option.{option_map};
ghost use Rattle.dropin_merge.specs.KeyWalk.{key_left};
ghost use Rattle.dropin_merge.specs.Spots.{assignment_at};
ghost use Rattle.dropin_merge.specs.unit_values.Values.{given_by, note_of, notes_of, values_of, written_by, written_values};

use crate::spots::Spot;
use crate::unit_values::assignments::{ServiceAssignments, no_assignments, service_assignments};
use crate::unit_values::value::Place;
use crate::{Resolved, UnitFile};
use unit_grammar::Assignment;

// Returns the assignment at a spot of the files, with its place.
fn assignment_at(files: &[UnitFile], spot: Spot) -> Option<(Place, &Assignment)>
    ensures { option_map (λ one. (one.0, one.1.now)) result ≡ assignment_at files.now spot }
{
    let file = files.get(spot.file)?;
    let assignment = file.text.assignments.list().get(spot.at)?;
    let place = Place {
        file: spot.file,
        line: assignment.line,
    };
    Some((place, assignment))
}

/// An iterator over assignments of a unit's service that are left: all to one key, and perhaps others.
#[derive(Drop)]
pub(crate) struct KeyAssignments<'a> {
    // All files.
    files: &'a [UnitFile],
    // The spots that are left in the bucket of the key.
    spots: &'a [Spot],
    // Without spots, all assignments that are left.
    others: ServiceAssignments<'a>,
}

// Returns the first assignment at one of these spots, and the spots after it.
fn split_first_found<'a>(
    files: &'a [UnitFile],
    spots: &'a [Spot],
) -> Option<(Place, &'a Assignment, &'a [Spot])>
    ensures { MatchOption result (filter_map (assignment_at files.now) spots.now ≡ [])
        (λ found. filter_map (assignment_at files.now) spots.now ≡ (found.0, found.1.now) ∷ filter_map (assignment_at files.now) found.2.now) }
{
    let mut left = spots;
    while let Some((first, more)) = left.split_first() {
        if let Some((place, assignment)) = assignment_at(files, *first) {
            return Some((place, assignment, more));
        }
        left = more;
    }
    None
}

impl<'a> Iterator for KeyAssignments<'a> {
    ghost use Rattle.std.specs.Iterator.{item_count};
    ghost use Rattle.dropin_merge.specs.KeyWalk.{GivesFirstOfKey, key_left};

    type Item = (Place, &'a Assignment);

    ghost next_gives = { GivesFirstOfKey };

    ghost remaining = { item_count key_left };

    fn next(&mut self) -> Option<(Place, &'a Assignment)> {
        if let Some((place, assignment, spots)) = split_first_found(self.files, self.spots) {
            self.spots = spots;
            return Some((place, assignment));
        }
        self.spots = &[];
        self.others.next()
    }
}

/// Returns the assignments in the section `[Service]` of a unit that may be to a key, in the order of files and lines. All
/// that are to the key are among them.
pub(crate) fn assignments_of_key<'a>(unit: &'a Resolved, key: &str) -> KeyAssignments<'a>
    ensures all_values { values_of unit.now key.now ≡ filter_map (given_by unit.now.systemd unit.now.name key.now) (key_left result) }
    ensures all_notes { notes_of unit.now key.now ≡ filter_map (note_of unit.now.systemd unit.now.name key.now) (key_left result) }
    ensures all_written { written_values unit.now key.now ≡ filter_map (written_by key.now) (key_left result) }
{
    let files = unit.files.list();
    if let Some(spots) = unit.files.spots(key) {
        return KeyAssignments {
            files,
            spots,
            others: no_assignments(),
        };
    }
    KeyAssignments {
        files,
        spots: &[],
        others: service_assignments(unit),
    }
}
