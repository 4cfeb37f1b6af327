//! Iterates over the assignments of a unit's service, with their places (systemd.unit(5), systemd.service(5)).
ghost use Rattle.std.specs.Prelude.{◌≡◌, ◌∷◌, [], MatchOption, filter};
ghost use Rattle.dropin_merge.specs.unit_values.Assignments.{is_of_service, service_assignments};
ghost use Rattle.dropin_merge.specs.unit_values.Walk.{assignments_left};

use crate::unit_values::value::Place;
use crate::{Resolved, UnitFile};
use unit_grammar::Assignment;

/// The section of a unit file that describes the service.
const SECTION: &str = "Service";

pub(crate) fn is_of_service(assignment: &Assignment) -> bool
    ensures { result ≡ is_of_service assignment.now }
{
    assignment.section.as_str() == SECTION
}

// Returns the first assignment of the service, and the assignments after it.
fn split_first_of_service(assignments: &[Assignment]) -> Option<(&Assignment, &[Assignment])>
    ensures { MatchOption result (filter is_of_service assignments.now ≡ []) (λ found. filter is_of_service assignments.now ≡ found.0.now ∷ filter is_of_service found.1.now) }
{
    let mut left = assignments;
    while let Some((first, more)) = left.split_first() {
        if is_of_service(first) {
            return Some((first, more));
        }
        left = more;
    }
    None
}

/// An iterator over the assignments of a unit's service that are left.
#[derive(Drop)]
pub struct ServiceAssignments<'a> {
    // All files.
    files: &'a [UnitFile],
    // How many files have begun.
    begun: usize,
    // The number of the last file that has begun.
    file: usize,
    // The assignments of that file that are left.
    left: &'a [Assignment],
}

impl<'a> Iterator for ServiceAssignments<'a> {
    ghost use Rattle.std.specs.Iterator.{item_count};
    ghost use Rattle.dropin_merge.specs.unit_values.Walk.{GivesFirstAssignment};

    type Item = (Place, &'a Assignment);

    ghost next_gives = { GivesFirstAssignment };

    ghost remaining = { item_count assignments_left };

    fn next(&mut self) -> Option<(Place, &'a Assignment)> {
        loop {
            if let Some((assignment, left)) = split_first_of_service(self.left) {
                self.left = left;
                let place = Place {
                    file: self.file,
                    line: assignment.line,
                };
                return Some((place, assignment));
            }
            if self.begun >= self.files.len() {
                return None;
            }
            self.file = self.begun;
            self.left = self.files[self.begun].text.assignments.list();
            self.begun += 1;
        }
    }
}

// Returns an iterator with no assignments left.
pub(crate) fn no_assignments<'a>() -> ServiceAssignments<'a>
    ensures { assignments_left result ≡ [] }
{
    ServiceAssignments {
        files: &[],
        begun: 0,
        file: 0,
        left: &[],
    }
}

/// Returns the assignments in the section `[Service]` of a unit, in the order of files and lines.
#[tactic(auto, unfolding(crate::specs::unit_values::Assignments::service_assignments))]
pub fn service_assignments(unit: &Resolved) -> ServiceAssignments<'_>
    ensures all_in_order { assignments_left result ≡ service_assignments unit.now }
{
    ServiceAssignments {
        files: unit.files.list(),
        begun: 0,
        file: 0,
        left: &[],
    }
}
