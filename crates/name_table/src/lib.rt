//! Keeps named lines in the order of a file, and finds them by their names.
//!
//! A `NameTable` holds the lines in the order in which they were put. It also holds their places in the order of
//! their names, and finds a name by halving. Contracts see the list of the lines: `table.push(alloc, line)?` puts a
//! line last, `table.get("read")` finds it, and `table.lines()` lends all.
#![tactic(auto)]

ghost use Rattle.std.specs.Prelude.{◌≡◌, ◌++◌, ◌∷◌, [], map, false, is_some, find, position, option_copied, OnOk, OnErr};
ghost use Rattle.std.specs.List.{list_any};
ghost use Rattle.std.specs.Str.{bytes_eq};
ghost use Rattle.name_table.specs.Places.{ArePlaces};
ghost use Rattle.name_table.specs.Rank.{IsRank};

use std::alloc::{AllocError, Global};
use std::marker::Model;

/// A line that has a name.
pub trait Named {
    ghost use Rattle.std.specs.Prelude.{ℕ, List};

    ghost name_of: { Self → List ℕ };

    /// The text of the name.
    fn name(&self) -> &str
        ensures { result.now ≡ name_of self.now };
}

/// A line that can be marked, which leaves its name as it is.
pub trait Marked: Named {
    /// What a line is marked with.
    type Mark: Copy;

    ghost marked: { Self.Mark → Self → Self };

    /// Marks the line.
    fn mark(&mut self, mark: Self::Mark)
        ensures { self.new ≡ marked mark self.old };

    ghost keeps_name: { (mark : Self.Mark) (line : Self) → Self.Named.name_of (marked mark line) ≡ Self.Named.name_of line };
}

/// Lines in their order, each with a name of its own; contracts see them as a list.
#[derive(Drop)]
pub struct NameTable<L: Named> {
    lines: Vec<L>,
    // The places of the lines, in the order of their names.
    places: Vec<usize>,
}

impl<L: Named> Model for NameTable<L> {
    ghost use Rattle.std.specs.Prelude.{List, map};
    ghost use Rattle.name_table.specs.Places.{ArePlaces};

    ghost Value = { List L };

    ghost view = { λ table. table.lines.items };

    ghost invariant = { λ table. ArePlaces (map L.name_of table.lines.items) table.places.items };
}

impl<L: Named> NameTable<L> {
    /// No lines, for which memory comes from here.
    pub fn new(alloc: Global) -> Self
        ensures no_line { result ≡ [] }
    {
        NameTable {
            lines: Vec::new(alloc),
            places: Vec::new(alloc),
        }
    }

    /// The lines in the order in which they were put.
    pub fn lines(&self) -> &[L]
        ensures all_in_order { result.now ≡ self.now }
    {
        self.lines.as_slice()
    }

    /// Returns whether a line has this name.
    pub fn has(&self, name: &str) -> bool
        ensures by_name { result ≡ list_any (λ line. bytes_eq name.now (L.name_of line)) self.now }
    {
        place_of(&self.lines, &self.places, name).is_some()
    }

    /// The line of this name.
    pub fn get(&self, name: &str) -> Option<&L>
        ensures by_name { option_copied result ≡ find (λ line. bytes_eq name.now (L.name_of line)) self.now }
    {
        let place = place_of(&self.lines, &self.places, name)?;
        self.lines.get(place)
    }

    /// The place of the line of this name, from 0.
    pub fn place(&self, name: &str) -> Option<usize>
        ensures by_name { result ≡ position (λ line. bytes_eq name.now (L.name_of line)) self.now }
    {
        place_of(&self.lines, &self.places, name)
    }
}

impl<L: Marked> NameTable<L> {
    /// Marks each line. The lines keep their names and their order.
    pub fn mark(&mut self, mark: L::Mark)
        ensures marks_each { self.new ≡ map (L.marked mark) self.old }
    {
        mark_each(&mut self.lines, mark);
    }
}

fn mark_each<L: Marked>(lines: &mut [L], mark: L::Mark)
    ensures { lines.new ≡ map (L.marked mark) lines.old }
{
    for line in lines.iter_mut() {
        line.mark(mark);
    }
}

impl<L: Named + Drop> NameTable<L> {
    /// Puts a line last, whose name no other has. If memory runs out, the lines stay as they were.
    pub fn push(&mut self, alloc: Global, line: L) -> Result<(), AllocError>
        requires new_name { list_any (λ other. bytes_eq (L.name_of line) (L.name_of other)) self.old ≡ false }
        ensures goes_last { OnOk result (self.new ≡ self.old ++ line ∷ []) }
        ensures unchanged { OnErr result (self.new ≡ self.old) }
    {
        let rank = rank_of(&self.lines, &self.places, line.name());
        let place = self.lines.len();
        // With room made first, nothing fails once the place is put.
        self.lines.reserve(1)?;
        self.places.insert(rank, place)?;
        self.lines.push(line)?;
        Ok(())
    }
}

/// Returns how many of the names come before this one.
fn rank_of<L: Named>(lines: &[L], places: &[usize], name: &str) -> usize
    requires { ArePlaces (map L.name_of lines.now) places.now }
    ensures rank { IsRank (map L.name_of lines.now) places.now name.now result }
{
    let mut low = 0;
    let mut high = places.len();
    while low < high {
        let middle = low + (high - low) / 2;
        if lines[places[middle]].name() < name {
            low = middle + 1;
        } else {
            high = middle;
        }
    }
    low
}

/// The place of the line of this name, from 0.
fn place_of<L: Named>(lines: &[L], places: &[usize], name: &str) -> Option<usize>
    requires { ArePlaces (map L.name_of lines.now) places.now }
    ensures by_name { result ≡ position (λ line. bytes_eq name.now (L.name_of line)) lines.now }
{
    let rank = rank_of(lines, places, name);
    if rank == places.len() {
        return None;
    }
    let place = places[rank];
    if lines[place].name() == name {
        Some(place)
    } else {
        None
    }
}
