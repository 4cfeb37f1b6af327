//! A set of places, in which a place is found at once.
ghost use Rattle.std.specs.Prelude.{◌≡◌, IfOk};
ghost use Rattle.why_command.specs.deciding_lines.unit_lines.Marks.{AddsIf, HasNone, IsAfter, has};
ghost use Rattle.why_command.specs.deciding_lines.unit_lines.Without.{is_among, is_place};

use crate::deciding_lines::unit_lines::place_row::PlaceRow;
use asked_service::Place;
use std::alloc::{AllocError, Global};
use std::marker::Model;

/// There are rows for at most so many files.
const MOST_FILES: usize = 65_536;

/// A row has marks for at most so many lines: a file has at most as many bytes.
const MOST_LINES: u64 = 1_048_576;

/// A set of places, which contracts see as their list.
#[derive(Drop)]
pub struct PlaceSet<'p> {
    // The places.
    places: &'p [Place],
    // For each of the first files, the marks on its lines.
    rows: Vec<PlaceRow>,
    // Whether each of the places has its mark.
    has_all: bool,
}

impl<'p> Model for PlaceSet<'p> {
    ghost use Rattle.std.specs.Prelude.{List};
    ghost use Rattle.asked_service.specs.dropin_merge.declared.unit_values.value.Place.{Place};
    ghost use Rattle.why_command.specs.deciding_lines.unit_lines.Marks.{AreMarked};

    ghost Value = { List Place };

    ghost view = { λ set. set.places.now };

    ghost invariant = { λ set. AreMarked set.places.now set.rows.items set.has_all };
}

fn is_place(one: Place, other: Place) -> bool
    ensures { result ≡ is_place one other }
{
    one.file == other.file && one.line == other.line
}

fn is_among(places: &[Place], place: Place) -> bool
    ensures { result ≡ is_among places.now place }
{
    places.iter().any(|one| is_place(*one, place))
}

// Returns how many rows these places need.
fn needed(places: &[Place]) -> usize {
    let mut most = 0;
    for place in places {
        most = place.file.min(MOST_FILES - 1).max(most);
    }
    most.min(MOST_FILES - 1) + 1
}

// Makes rows without marks.
fn empty_rows(alloc: Global, count: usize) -> Result<Vec<PlaceRow>, AllocError>
    ensures { IfOk result (λ rows. HasNone rows.items) }
{
    let mut rows = Vec::new(alloc);
    for _ in 0..count {
        rows.push(PlaceRow::empty(alloc))?;
    }
    Ok(rows)
}

// Returns whether a place is marked.
fn is_marked(rows: &[PlaceRow], place: Place) -> bool
    ensures { result ≡ has rows.now place }
{
    match rows.get(place.file) {
        Some(row) => row.has(place.line),
        None => false,
    }
}

// Marks a place, if there is a row for it and its line is not too far. Returns whether it is marked.
fn add(rows: &mut [PlaceRow], place: Place) -> Result<bool, AllocError>
    ensures { IfOk result (AddsIf place rows.old rows.new) }
{
    if place.file < rows.len() && place.line < MOST_LINES {
        rows[place.file].mark(place.line as usize)?;
        Ok(true)
    } else {
        Ok(false)
    }
}

// Marks a place. Returns whether all places have their marks, if those before had.
fn add_next(rows: &mut [PlaceRow], has_all: bool, place: Place) -> Result<bool, AllocError>
    ensures { IfOk result (IsAfter place rows.old has_all rows.new) }
{
    let is_marked = add(rows, place)?;
    Ok(has_all && is_marked)
}

impl<'p> PlaceSet<'p> {
    /// Makes a set of these places.
    pub fn of(alloc: Global, places: &'p [Place]) -> Result<PlaceSet<'p>, AllocError>
        ensures of_them { IfOk result (λ set. set ≡ places.now) }
    {
        let mut rows = empty_rows(alloc, needed(places))?;
        let mut has_all = true;
        for place in places {
            has_all = add_next(&mut rows, has_all, *place)?;
        }
        Ok(PlaceSet {
            places,
            rows,
            has_all,
        })
    }

    /// Returns whether a place is in the set.
    pub fn contains(&self, place: Place) -> bool
        ensures is_one_of_them { result ≡ is_among self.now place }
    {
        is_marked(&self.rows, place) || (!self.has_all && is_among(self.places, place))
    }
}
