//! Adds one more file after the files of a unit.

ghost use Rattle.std.specs.Prelude.{◌≡◌, IfOk};
ghost use Rattle.asked_service.specs.launching.Longer.{says, with_file};

use report_text::{Assignments, Notes, Resolved, UnitError, UnitText, read_unit};
use std::alloc::{AllocError, Global};

// Returns what a file of these bytes says; one that is refused says nothing.
fn said(alloc: Global, bytes: &[u8]) -> Result<UnitText, AllocError>
    ensures { IfOk result (λ text. text ≡ says bytes.now) }
{
    match read_unit(alloc, bytes) {
        Ok(text) => Ok(text),
        Err(UnitError::Memory) => Err(AllocError),
        Err(_) => Ok(UnitText {
            assignments: Assignments::empty(alloc),
            notes: Notes::empty(alloc),
        }),
    }
}

/// Makes the unit with a file of these bytes after its files, as a drop-in with the last name of all would be.
pub fn with_file(alloc: Global, unit: &Resolved, bytes: &[u8]) -> Result<Resolved, AllocError>
    ensures file_stands_last { IfOk result (λ longer. longer ≡ with_file unit.now bytes.now) }
{
    unit.extended(alloc, said(alloc, bytes)?)
}
