// Defines a value with its place, a note on a place, and an answer with its notes.
ghost use Rattle.std.specs.Prelude.{◌≡◌, ◌++◌, IfOk, OnOk, OnErr};

use std::alloc::AllocError;
use unit_grammar::{NoteCause, Text};

/// A line of a file of a unit. Places are ordered by file, and then by line.
#[derive(Clone, Copy, PartialEq, Eq, PartialOrd, Ord)]
pub struct Place {
    /// The number of the file among those in force, from 0.
    pub file: usize,
    /// The number of the line, from 1. A joined line has the number of its first line.
    pub line: u64,
}

/// A value that a file of a unit gives to a key, with its specifiers expanded.
#[derive(Drop)]
pub struct Value {
    /// The place of the assignment.
    pub place: Place,
    /// The expanded text.
    pub text: Text,
}

/// A note on a line of a file of a unit.
#[derive(Clone, Copy)]
pub struct FileNote {
    /// The line.
    pub place: Place,
    /// What was passed over in that line, and why.
    pub cause: NoteCause,
}

/// An answer from the files of a unit, and the notes on values that could not be read.
#[derive(Drop)]
pub struct Said<T> {
    /// The answer.
    pub what: T,
    /// The notes, in the order in which they were made.
    pub notes: Vec<FileNote>,
}

impl<T: Drop> Said<T> {
    /// Returns the answer, and appends its notes to `notes`.
    pub fn noted_in(self, notes: &mut Vec<FileNote>) -> Result<T, AllocError>
        ensures as_said { IfOk result (λ what. what ≡ self.what) }
        ensures notes_behind { OnOk result (notes.new.items ≡ notes.old.items ++ self.notes.items) }
        ensures unchanged { OnErr result (notes.new.items ≡ notes.old.items) }
    {
        let Said { what, notes: more } = self;
        notes.extend_from_slice(more.as_slice())?;
        Ok(what)
    }

    /// Returns the same answer, with these notes before its own.
    pub fn behind(self, mut notes: Vec<FileNote>) -> Result<Said<T>, AllocError>
        ensures as_said { IfOk result (λ said. said.what ≡ self.what) }
        ensures notes_before { IfOk result (λ said. said.notes.items ≡ notes.items ++ self.notes.items) }
    {
        let what = self.noted_in(&mut notes)?;
        Ok(Said { what, notes })
    }
}
