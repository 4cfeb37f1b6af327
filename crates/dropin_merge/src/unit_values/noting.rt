//! Makes notes on values.
ghost use Rattle.std.specs.Prelude.{◌≡◌, ◌++◌, ◌∷◌, [], OnOk};
ghost use Rattle.dropin_merge.specs.unit_values.Notes.{note_at, notes_at};

use crate::unit_values::value::{FileNote, Value};
use std::alloc::AllocError;
use unit_grammar::NoteCause;

/// Appends a note on a value.
pub fn note_value(
    notes: &mut Vec<FileNote>,
    value: &Value,
    cause: NoteCause,
) -> Result<(), AllocError>
    ensures noted { OnOk result (notes.new.items ≡ notes.old.items ++ note_at value.now cause ∷ []) }
{
    notes.push(FileNote {
        place: value.place,
        cause,
    })?;
    Ok(())
}

/// Appends a note on a value for each of these causes.
pub fn note_causes(
    notes: &mut Vec<FileNote>,
    value: &Value,
    causes: &[NoteCause],
) -> Result<(), AllocError>
    ensures all_noted { OnOk result (notes.new.items ≡ notes.old.items ++ notes_at value.now causes.now) }
{
    for cause in causes {
        note_value(notes, value, *cause)?;
    }
    Ok(())
}
