// Defines the contents of a unit file, and why a file is refused.
//
// Contracts see the texts as bytes and the lists as lists; the notes come from `notes`.
ghost use Rattle.std.specs.Prelude.{◌≡◌, IfOk};
ghost use Rattle.unit_grammar.specs.declared.unit.UnitError.TheVariants.{Memory};

use crate::notes::Notes;
use crate::texts::Text;
use std::alloc::{AllocError, Global};
use text_forms::item_list::ItemList;
use thiserror::Error;

/// A key of a section, and its value.
#[derive(Drop)]
pub struct Assignment {
    /// The text between the brackets of the last header before it.
    pub section: Text,
    pub key: Text,
    pub value: Text,
    /// The number of the line, from 1. A joined line has the number of its first line.
    pub line: u64,
}

impl Assignment {
    // Returns a copy of the assignment.
    fn copy(&self, alloc: Global) -> Result<Assignment, AllocError>
        ensures { IfOk result (λ copy. copy ≡ self.now) }
    {
        Ok(Assignment {
            section: Text::new(alloc, self.section.as_str())?,
            key: Text::new(alloc, self.key.as_str())?,
            value: Text::new(alloc, self.value.as_str())?,
            line: self.line,
        })
    }
}

/// Assignments, which contracts see as a list.
pub type Assignments = ItemList<Assignment>;

// Returns a copy of the assignments.
fn copied(alloc: Global, assignments: &[Assignment]) -> Result<Assignments, AllocError>
    ensures { IfOk result (λ copies. copies ≡ assignments.now) }
{
    let mut copies = Vec::new(alloc);
    for assignment in assignments {
        copies.push(assignment.copy(alloc)?)?;
    }
    Ok(Assignments::new(copies))
}

/// The contents of a unit file: the assignments of all sections, and the notes, in the order of lines.
#[derive(Drop)]
pub struct UnitText {
    pub assignments: Assignments,
    pub notes: Notes,
}

impl UnitText {
    /// Returns a copy of the contents.
    pub fn copy(&self, alloc: Global) -> Result<UnitText, AllocError>
        ensures same_text { IfOk result (λ copy. copy ≡ self.now) }
    {
        Ok(UnitText {
            assignments: copied(alloc, self.assignments.list())?,
            notes: self.notes.copy(alloc)?,
        })
    }
}

/// Why a unit file is refused.
#[derive(Clone, Copy, Debug, PartialEq, Eq, Error)]
pub enum UnitError {
    /// The bytes are not UTF-8, or have a NUL.
    #[error("no text")]
    NotText,
    /// The line of this number begins with `[` and does not end with `]`.
    #[error("line {0} begins a header and does not end it")]
    BadHeader(u64),
    /// The file has more than 4,096 assignments under headers.
    #[error("too many assignments")]
    TooMany,
    /// Memory ran out.
    #[error("out of memory")]
    Memory,
}

impl From<AllocError> for UnitError {
    ghost from_gives = { λ _ e. e ≡ Memory };

    fn from(_: AllocError) -> Self {
        UnitError::Memory
    }
}
