// Reads the values of a key.
ghost use Rattle.std.specs.Prelude.{◌≡◌, ◌++◌, [], IfOk, OnOk};
ghost use Rattle.std.specs.List.{cons_option};
ghost use Rattle.dropin_merge.specs.unit_values.Values.{expanded_at, unexpanded_at, given_by, note_of, notes_of, values_of};

use crate::Resolved;
use crate::unit_values::keyed::assignments_of_key;
use crate::unit_values::value::{FileNote, Place, Said, Value};
use std::alloc::{AllocError, Global};
use unit_grammar::{Assignment, NoteCause, Text};
use unit_names::{ExpandError, UnitName, Version, expand};

/// Returns the expanded value of an assignment at this place. A value that cannot be expanded is left out and noted.
pub fn value_at(
    alloc: Global,
    systemd: Option<Version>,
    name: &UnitName,
    place: Place,
    assignment: &Assignment,
) -> Result<Said<Option<Value>>, AllocError>
    ensures expanded { IfOk result (λ said. said.what ≡ expanded_at systemd name.now (place, assignment.now)) }
    ensures notes_the_others { IfOk result (λ said. said.notes.items ≡ cons_option (unexpanded_at systemd name.now (place, assignment.now)) []) }
{
    let mut notes = Vec::new(alloc);
    let what = match expand(alloc, systemd, name, assignment.value.as_str()) {
        Ok(text) => Some(Value {
            place,
            text: Text::from(text),
        }),
        Err(ExpandError::Specifier) => {
            notes.push(FileNote {
                place,
                cause: NoteCause::Specifier,
            })?;
            None
        }
        Err(ExpandError::Memory) => return Err(AllocError),
    };
    Ok(Said { what, notes })
}

// Returns the value that an assignment gives to the key. A value that cannot be expanded is left out and noted.
pub(crate) fn given_value(
    alloc: Global,
    systemd: Option<Version>,
    name: &UnitName,
    key: &str,
    place: Place,
    assignment: &Assignment,
    notes: &mut Vec<FileNote>,
) -> Result<Option<Value>, AllocError>
    ensures given { IfOk result (λ value. value ≡ given_by systemd name.now key.now (place, assignment.now)) }
    ensures noted { OnOk result (notes.new.items ≡ notes.old.items ++ cons_option (note_of systemd name.now key.now (place, assignment.now)) []) }
{
    if assignment.key.as_str() != key {
        return Ok(None);
    }
    value_at(alloc, systemd, name, place, assignment)?.noted_in(notes)
}

// Appends the value that an assignment gives, if it gives one.
pub(crate) fn add_given(values: &mut Vec<Value>, value: Option<Value>) -> Result<(), AllocError>
    ensures { OnOk result (values.new.items ≡ values.old.items ++ cons_option value []) }
{
    if let Some(value) = value {
        values.push(value)?;
    }
    Ok(())
}

/// Returns the values that the files of a unit give to a key of `[Service]`, expanded, in the order of files and lines. A
/// value that cannot be expanded is left out and noted.
pub fn values_of_key(
    alloc: Global,
    unit: &Resolved,
    key: &str,
) -> Result<Said<Vec<Value>>, AllocError>
    ensures all_values_in_order { IfOk result (λ said. said.what.items ≡ values_of unit.now key.now) }
    ensures notes_the_others { IfOk result (λ said. said.notes.items ≡ notes_of unit.now key.now) }
{
    let mut values = Vec::new(alloc);
    let mut notes = Vec::new(alloc);
    for (place, assignment) in assignments_of_key(unit, key) {
        let value = given_value(
            alloc,
            unit.systemd,
            &unit.name,
            key,
            place,
            assignment,
            &mut notes,
        )?;
        add_given(&mut values, value)?;
    }
    Ok(Said {
        what: values,
        notes,
    })
}
