//! Keeps rows in byte order of their paths.

ghost use Rattle.std.specs.Prelude.{◌≡◌, ◌&&◌, true, IfSome, OnOk, MatchOption};
ghost use Rattle.std.specs.Str.{bytes_eq};
ghost use Rattle.abs_path.specs.Paths.{tail_of};
ghost use Rattle.site_table.specs.Order.{has_row, row_placed, AreOrdered, GoesAt};
ghost use Rattle.site_table.specs.Kinds.{is_dir};
ghost use Rattle.site_table.specs.RowSteps.{dir_placed, has_dir_row, stands_behind};

use crate::files::{is_always_dir_text, plain_file};
use crate::find::{search, search_text};
use crate::kinds::RowKind;
use crate::paths::{parent, tail};
use crate::row::Row;
use abs_path::AbsPath;
use std::alloc::AllocError;
use text_forms::item_list::{Held, HeldList};

// returns whether the row is a directory whose path has this text
fn is_dir_of(row: &Row, text: &str) -> bool
    ensures { result ≡ (is_dir row.now.kind && bytes_eq text.now (tail_of row.now.path)) }
{
    matches!(row.kind, RowKind::Dir) && text == tail(&row.path)
}

// returns whether the row of this number is a directory whose path has this text
fn is_dir_at(rows: &[Row], at: usize, text: &str) -> bool
    ensures { result ≡ true → has_dir_row rows.now text.now ≡ true }
{
    rows.get(at).is_some_and(|row| is_dir_of(row, text))
}

// returns the number of a directory whose path has this text: it looks at the row of a hint first, and then at the last row,
// because a folder precedes its contents
fn dir_place(rows: &[Row], hint: usize, text: &str) -> Option<usize>
    requires { AreOrdered rows.now }
    ensures { IfSome result (λ at. has_dir_row rows.now text.now ≡ true) }
{
    if is_dir_at(rows, hint, text) {
        return Some(hint);
    }
    let last = rows.len().saturating_sub(1);
    if is_dir_at(rows, last, text) {
        return Some(last);
    }
    let at = search_text(rows, text, "").ok()?;
    is_dir_at(rows, at, text).then_some(at)
}

impl Held for Row {
    ghost use Rattle.site_table.specs.Order.{AreOrdered};

    ghost AreHeld = { AreOrdered };
}

/// Rows in byte order of their paths, each path once.
pub type OrderedRows = HeldList<Row>;

/// Returns the place for a row of this path, or None if the path has a row already.
pub fn place_for(ordered: &OrderedRows, path: &AbsPath) -> Option<usize>
    ensures where_it_goes { MatchOption result (has_row ordered.now path.now ≡ true) (GoesAt ordered.now path.now) }
{
    search(ordered.list(), path, "").err()
}

/// Returns the number of the row of the path's folder, if that folder is among the rows or always exists. The number is the
/// hint for the next path. For the root it is any number.
pub fn folder_of(ordered: &OrderedRows, hint: usize, path: &AbsPath) -> Option<usize>
    ensures folder_stands { IfSome result (λ at. stands_behind ordered.now path.now ≡ true) }
{
    match parent(path) {
        Some(folder) if !is_always_dir_text(folder) => dir_place(ordered.list(), hint, folder),
        _ => Some(hint),
    }
}

/// Puts a row in its place.
pub fn put(ordered: &mut OrderedRows, at: usize, row: Row) -> Result<(), AllocError>
    requires { GoesAt ordered.old row.path at }
    ensures placed { OnOk result (ordered.new ≡ row_placed row ordered.old) }
{
    ordered.insert(at, row)
}

/// Puts a directory of this path in its place, unless the path has a row already.
pub fn put_dir(ordered: &mut OrderedRows, path: AbsPath) -> Result<(), AllocError>
    ensures dir_placed { OnOk result (ordered.new ≡ dir_placed path ordered.old) }
{
    match place_for(ordered, &path) {
        Some(at) => put(ordered, at, plain_file(path, RowKind::Dir)),
        None => Ok(()),
    }
}
