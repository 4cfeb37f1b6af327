//! Marks on the lines of a file.
ghost use Rattle.std.specs.Prelude.{◌≡◌, ◌+◌, ◌<◌, ◌^◌, [], false, length, slice_index_or, OnOk};
ghost use Rattle.why_command.specs.deciding_lines.unit_lines.Marks.{MarksMore, ReadsAlike};

use std::alloc::{AllocError, Global};
use std::marker::Model;

/// Marks on the lines of a file, from line 0 on. Contracts see them as a list; a line after them is not marked.
#[derive(Drop)]
pub struct PlaceRow {
    marks: Vec<bool>,
}

impl Model for PlaceRow {
    ghost use Rattle.std.specs.Prelude.{Bool, List};

    ghost Value = { List Bool };

    ghost view = { λ row. row.marks.items };
}

impl PlaceRow {
    /// Makes a row without marks, which takes its memory from this allocator.
    pub fn empty(alloc: Global) -> PlaceRow
        ensures marks_nothing { result ≡ [] }
    {
        PlaceRow {
            marks: Vec::new(alloc),
        }
    }

    /// Returns whether a line is marked.
    pub fn has(&self, line: u64) -> bool
        ensures is_marked { result ≡ slice_index_or self.now line false }
    {
        if line < self.marks.len() as u64 {
            self.marks[line as usize]
        } else {
            false
        }
    }

    // Makes the row long enough for a line.
    fn reach(&mut self, line: usize) -> Result<(), AllocError>
        requires is_no_last_number { line + 1 < 2 ^ 64 }
        ensures reaches { OnOk result (line < length self.new) }
        ensures reads_alike { OnOk result (ReadsAlike self.old self.new) }
    {
        if line < self.marks.len() {
            return Ok(());
        }
        self.marks.resize(line + 1, false)?;
        Ok(())
    }

    /// Marks a line.
    pub fn mark(&mut self, line: usize) -> Result<(), AllocError>
        requires is_no_last_number { line + 1 < 2 ^ 64 }
        ensures one_more { OnOk result (MarksMore line self.old self.new) }
    {
        self.reach(line)?;
        self.marks[line] = true;
        Ok(())
    }
}
