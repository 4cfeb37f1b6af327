//! Finds the last mount whose place leads to a path. Mounts that the tree does not know are searched first, one by one.

ghost use Rattle.std.specs.Prelude.{◌≡◌, ◌≤◌, false, length, MatchOption};
ghost use Rattle.std.specs.List.{AllWithin};
ghost use Rattle.abs_path.specs.Prefix.{is_prefix};
ghost use Rattle.abs_path.specs.place_tree.Places.{IsLastAt, IsLastLeading};
ghost use Rattle.kern_mounts.specs.Table.{Knows, places_of};
ghost use Rattle.kern_mounts.specs.Mounts.{steps_of};

use super::known::KnownPlaces;
use crate::step::Mount;
use abs_path::AbsPath;

// The number of the last mount that leads to the path, among the mounts after the first `known`.
fn last_behind(mounts: &[Mount], known: usize, path: &AbsPath) -> Option<usize>
    requires { known ≤ length mounts.now }
    ensures { MatchOption result
        (AllWithin (λ place. is_prefix place path.now ≡ false) (places_of (steps_of mounts.now)) known (length mounts.now))
        (IsLastAt (λ place. is_prefix place path.now) (places_of (steps_of mounts.now))) }
{
    for index in (known..mounts.len()).rev() {
        if mounts[index].step.place.is_prefix(path) {
            return Some(index);
        }
    }
    None
}

/// Returns the number of the last mount that leads to the path. The tree has the places of the first `known` mounts.
pub(crate) fn last_leading(
    mounts: &[Mount],
    places: &KnownPlaces,
    known: usize,
    path: &AbsPath,
) -> Option<usize>
    requires { Knows known (steps_of mounts.now) places.now }
    ensures { IsLastLeading (places_of (steps_of mounts.now)) path.now result }
{
    match last_behind(mounts, known, path) {
        Some(at) => Some(at),
        None => places.last_leading(path),
    }
}
