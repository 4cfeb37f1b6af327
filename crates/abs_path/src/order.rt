//! Keeps lists of paths in byte order, each path once.

ghost use Rattle.std.specs.Prelude.{◌≡◌, ◌≤◌, OnOk, OnErr, MatchOption, length, insert};
ghost use Rattle.abs_path.specs.ByteOrder.{placed, AreAscending};

use crate::path::AbsPath;
use std::alloc::{AllocError, Global};
use std::cmp::Ordering;

// returns the place of a path in the list, unless the list has the path already
fn place_of(paths: &[AbsPath], path: &AbsPath) -> Option<usize>
    ensures { MatchOption result (placed path.now paths.now ≡ paths.now)
        (λ at. (at ≤ length paths.now) × (placed path.now paths.now ≡ insert paths.now at path.now)) }
{
    for (index, other) in paths.iter().enumerate() {
        match path.order(other) {
            Ordering::Less => return Some(index),
            Ordering::Equal => return None,
            Ordering::Greater => {}
        }
    }
    Some(paths.len())
}

/// Puts a copy of the path in its place in a list in byte order, unless the list has the path already. If memory runs out,
/// the list stays as it was.
pub fn put(alloc: Global, paths: &mut Vec<AbsPath>, path: &AbsPath) -> Result<(), AllocError>
    ensures in_its_place { OnOk result (paths.new.items ≡ placed path.now paths.old.items) }
    ensures stays_ascending { AreAscending paths.old.items → AreAscending paths.new.items }
    ensures unchanged_on_error { OnErr result (paths.new.items ≡ paths.old.items) }
{
    match place_of(paths, path) {
        None => Ok(()),
        Some(at) => {
            let copy = path.copy(alloc)?;
            paths.insert(at, copy)?;
            Ok(())
        }
    }
}
