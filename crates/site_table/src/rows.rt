//! Reads the rows of a site: each on its own, and then its place among the others.

ghost use Rattle.std.specs.Prelude.{◌≡◌, ◌||◌, ℕ, List, map, Ok, OnOk, IfOk, IfSome};
ghost use Rattle.toml.specs.View.{view};
ghost use Rattle.abs_path.specs.Paths.{proc};
ghost use Rattle.site_table.specs.Order.{with_fixed, rows_in_order};
ghost use Rattle.site_table.specs.Reading.{IsUnlessMemory, unless_fault, row_faults};
ghost use Rattle.site_table.specs.Rows.{row_of};
ghost use Rattle.site_table.specs.RowSteps.{Places, stands_in, has_folder, TakesFolder, fixed_placed, PlacesBehind};
ghost use Rattle.site_table.specs.Texts.{has_text};

use crate::error::{RowCause, SiteError};
use crate::files::{is_always_dir_text, is_dir, read_row};
use crate::order::{OrderedRows, folder_of, place_for, put, put_dir};
use crate::paths::{parent, path_of, tail};
use crate::row::Row;
use crate::seen::Seen;
use abs_path::AbsPath;
use std::alloc::{AllocError, Global};
use toml::Value;

// adds the text of the row's path, if the row is a directory
fn add_folder(alloc: Global, folders: &mut Seen, row: &Value) -> Result<(), AllocError>
    ensures { OnOk result (TakesFolder folders.old (view row.now) folders.new) }
{
    if !is_dir(row) {
        return Ok(());
    }
    match path_of(alloc, row)? {
        Some(path) => folders.add(alloc, tail(&path)),
        None => Ok(()),
    }
}

// returns the texts of the paths of the listed directories
fn listed_folders(alloc: Global, rows: &[Value]) -> Result<Seen, AllocError>
    ensures { IfOk result (λ folders. (text : List ℕ)
        → has_text folders text ≡ has_folder (map view rows.now) text) }
{
    let mut folders = Seen::new(alloc);
    for row in rows {
        add_folder(alloc, &mut folders, row)?;
    }
    Ok(folders)
}

// returns whether the path is the root, or its folder is known
fn stands_in(folders: &Seen, path: &AbsPath) -> bool
    ensures { result ≡ stands_in folders.now path.now }
{
    parent(path).is_none_or(|folder| is_always_dir_text(folder) || folders.has(folder))
}

// puts the row of this number in its place, or refuses it
fn place(number: u64, folders: &Seen, ordered: &mut OrderedRows, row: Row) -> Result<(), SiteError>
    ensures { Places number folders.now ordered.old row ordered.new result }
{
    let Some(at) = place_for(ordered, &row.path) else {
        return Err(SiteError::Row(number, RowCause::Duplicate));
    };
    if !stands_in(folders, &row.path) {
        return Err(SiteError::Row(number, RowCause::NoParent));
    }
    Ok(put(ordered, at, row)?)
}

// puts a row in its place, if the row has no fault and its folder is among the rows before it; returns the number of that
// folder's row
fn place_behind(
    alloc: Global,
    ordered: &mut OrderedRows,
    hint: usize,
    value: &Value,
) -> Result<Option<usize>, AllocError>
    ensures { IfOk result (λ found. IfSome found (λ at. PlacesBehind ordered.old (view value.now) ordered.new)) }
{
    let row = match read_row(alloc, 1, value) {
        Ok(row) => row,
        Err(SiteError::Memory) => return Err(AllocError),
        Err(_) => return Ok(None),
    };
    let Some(at) = place_for(ordered, &row.path) else {
        return Ok(None);
    };
    let Some(folder) = folder_of(ordered, hint, &row.path) else {
        return Ok(None);
    };
    put(ordered, at, row)?;
    Ok(Some(folder))
}

// returns the listed rows in their order, if no row has a fault and each follows its folder
fn rows_behind_folders(alloc: Global, rows: &[Value]) -> Result<Option<OrderedRows>, AllocError>
    ensures { IfOk result (λ found. IfSome found (λ ordered.
        unless_fault (row_faults (map view rows.now)) (rows_in_order (map row_of (map view rows.now))) ≡ Ok ordered)) }
{
    let mut ordered = OrderedRows::new(Vec::new(alloc));
    let mut hint = 0;
    for value in rows {
        match place_behind(alloc, &mut ordered, hint, value)? {
            Some(folder) => hint = folder,
            None => return Ok(None),
        }
    }
    Ok(Some(ordered))
}

// returns the listed rows in their order, wherever their folders are
fn all_rows(alloc: Global, rows: &[Value]) -> Result<OrderedRows, SiteError>
    ensures { IsUnlessMemory (λ ordered. ordered) result
        (unless_fault (row_faults (map view rows.now)) (rows_in_order (map row_of (map view rows.now)))) }
{
    let folders = listed_folders(alloc, rows)?;
    let mut ordered = OrderedRows::new(Vec::new(alloc));
    for (at, value) in rows.iter().enumerate() {
        let number = at as u64 + 1;
        let row = read_row(alloc, number, value)?;
        place(number, &folders, &mut ordered, row)?;
    }
    Ok(ordered)
}

// returns the listed rows in their order: in one pass if each follows its folder, as in a sorted list, and otherwise with a
// look-up of the folders first
fn listed_rows(alloc: Global, rows: &[Value]) -> Result<OrderedRows, SiteError>
    ensures { IsUnlessMemory (λ ordered. ordered) result
        (unless_fault (row_faults (map view rows.now)) (rows_in_order (map row_of (map view rows.now)))) }
{
    match rows_behind_folders(alloc, rows)? {
        Some(ordered) => Ok(ordered),
        None => all_rows(alloc, rows),
    }
}

// adds `/` and `/proc` to the rows
fn complete(alloc: Global, mut ordered: OrderedRows) -> Result<Vec<Row>, AllocError>
    ensures { IfOk result (λ rows. rows.items ≡ fixed_placed ordered) }
{
    put_dir(&mut ordered, AbsPath::root(alloc))?;
    put_dir(&mut ordered, AbsPath::proc(alloc)?)?;
    Ok(ordered.into_items())
}

/// Returns the rows that the elements of the tree describe, in byte order of their paths, with `/` and `/proc` among
/// them, or the first fault of the first faulty row.
pub fn read_rows(alloc: Global, rows: &[Value]) -> Result<Vec<Row>, SiteError>
    ensures reads_the_rows { IsUnlessMemory (λ read. read.items) result
        (unless_fault (row_faults (map view rows.now))
        (rows_in_order (with_fixed (map row_of (map view rows.now))))) }
{
    let ordered = listed_rows(alloc, rows)?;
    Ok(complete(alloc, ordered)?)
}
