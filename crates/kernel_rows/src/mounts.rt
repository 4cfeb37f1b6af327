//! Changes a table of mounts, and asks it.
//!
//! | Row | Step |
//! |---|---|
//! | `mounts\|new` | begins a table with the host alone |
//! | `mounts\|push\|PLACE\|empty\|` | adds an empty mount at a place |
//! | `mounts\|push by turns\|N\|ONE\|OTHER` | adds so many at two places in turn |
//! | `mounts\|push numbered\|FRONT\|FIRST\|LAST` | adds one for each number, at the front with the number after it |
//! | `mounts\|resolve\|PATH` | finds the mount that a path belongs to |
//! | `mounts\|resolve rounds\|FRONT\|FIRST\|LAST\|N` | asks so many times if each such path belongs to the first mount |
use abs_path::{AbsPath, PathError};
use asked_service::{Flags, MountStep, MountTable, What};
use row_tools::{number, said};
use std::alloc::{AllocError, Global};

/// Returns the answer to a row on the table.
pub fn answer(alloc: Global, table: &mut MountTable, row: &[&str]) -> Result<String, AllocError> {
    match row {
        ["new"] => {
            *table = MountTable::new(alloc)?;
            length(alloc, table)
        }
        ["push", place, "empty", ""] => push_by_turns(alloc, table, 1, place, place),
        ["push by turns", count, one, other] => {
            push_by_turns(alloc, table, number(count), one, other)
        }
        ["push numbered", front, first, last] => {
            push_numbered(alloc, table, front, number(first), number(last))
        }
        ["resolve", path] => match &AbsPath::read(alloc, path) {
            Ok(path) => table.resolve(path).to_string(alloc),
            Err(error) => error.to_string(alloc),
        },
        ["resolve rounds", front, first, last, rounds] => resolve_rounds(
            alloc,
            table,
            &numbered_paths(alloc, front, number(first), number(last)),
            number(rounds),
        ),
        _ => said(alloc, "no row"),
    }
}

fn length(alloc: Global, table: &MountTable) -> Result<String, AllocError> {
    format!(in alloc; "{} entries", table.len())
}

// Pushes an empty mount at a place; where that is refused, the answer.
fn refused(
    alloc: Global,
    table: &mut MountTable,
    place: &str,
) -> Result<Option<String>, AllocError> {
    let Ok(place) = AbsPath::read(alloc, place) else {
        return Ok(Some(said(alloc, "no path")?));
    };
    let step = MountStep {
        place,
        what: What::Empty,
        flags: Flags::default(),
    };
    match table.push(step) {
        Ok(()) => Ok(None),
        Err(error) => Ok(Some(error.to_string(alloc)?)),
    }
}

// Pushes `count` empty mounts at two places in turn, and returns the result as text.
fn push_by_turns(
    alloc: Global,
    table: &mut MountTable,
    count: u64,
    one: &str,
    other: &str,
) -> Result<String, AllocError> {
    for turn in 0..count {
        let place = if turn % 2 == 0 { one } else { other };
        if let Some(told) = refused(alloc, table, place)? {
            return Ok(told);
        }
    }
    length(alloc, table)
}

// Pushes an empty mount for each number, at the front followed by the number, and returns the result as text.
fn push_numbered(
    alloc: Global,
    table: &mut MountTable,
    front: &str,
    first: u64,
    last: u64,
) -> Result<String, AllocError> {
    for number in first..=last {
        let place = format!(in alloc; "{front}{number}")?;
        if let Some(told) = refused(alloc, table, place.as_str())? {
            return Ok(told);
        }
    }
    length(alloc, table)
}

// The paths of the front with each of these numbers after it.
fn numbered_paths(
    alloc: Global,
    front: &str,
    first: u64,
    last: u64,
) -> Result<Vec<AbsPath>, PathError> {
    let mut paths = Vec::new(alloc);
    for number in first..=last {
        let text = format!(in alloc; "{front}{number}")?;
        let path = AbsPath::read(alloc, text.as_str())?;
        if paths.push(path).is_err() {
            return Err(PathError::Memory);
        }
    }
    Ok(paths)
}

// Asks if each of the paths belongs to entry 0, in so many rounds.
fn resolve_rounds(
    alloc: Global,
    table: &MountTable,
    paths: &Result<Vec<AbsPath>, PathError>,
    rounds: u64,
) -> Result<String, AllocError> {
    let paths = match paths {
        Ok(paths) => paths,
        Err(error) => return error.to_string(alloc),
    };
    for _ in 0..rounds {
        if let Some(path) = not_the_first(table, paths) {
            return format!(in alloc; "{} belongs to another", path.text());
        }
    }
    said(alloc, "each to entry 0")
}

// The first of the paths that does not belong to entry 0.
fn not_the_first<'a>(table: &MountTable, paths: &'a [AbsPath]) -> Option<&'a AbsPath> {
    for path in paths {
        if table.resolve(path) != 0 {
            return Some(path);
        }
    }
    None
}
