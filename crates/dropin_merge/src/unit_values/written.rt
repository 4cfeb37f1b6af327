// Reads the values of a key as they are written.
ghost use Rattle.std.specs.Prelude.{◌≡◌, IfOk};
ghost use Rattle.dropin_merge.specs.unit_values.Values.{written_by, written_values};

use crate::Resolved;
use crate::unit_values::keyed::assignments_of_key;
use crate::unit_values::reading::add_given;
use crate::unit_values::value::{Place, Value};
use std::alloc::{AllocError, Global};
use unit_grammar::{Assignment, Text};

// Returns the value that an assignment gives to the key.
fn written_value(
    alloc: Global,
    key: &str,
    place: Place,
    assignment: &Assignment,
) -> Result<Option<Value>, AllocError>
    ensures { IfOk result (λ value. value ≡ written_by key.now (place, assignment.now)) }
{
    if assignment.key.as_str() != key {
        return Ok(None);
    }
    Ok(Some(Value {
        place,
        text: Text::new(alloc, assignment.value.as_str())?,
    }))
}

/// Returns the values that the files of a unit give to a key of `[Service]`, in the order of files and lines, as they are
/// written. It expands no specifier.
pub fn written_values(alloc: Global, unit: &Resolved, key: &str) -> Result<Vec<Value>, AllocError>
    ensures all_values_in_order { IfOk result (λ values. values.items ≡ written_values unit.now key.now) }
{
    let mut values = Vec::new(alloc);
    for (place, assignment) in assignments_of_key(unit, key) {
        let value = written_value(alloc, key, place, assignment)?;
        add_given(&mut values, value)?;
    }
    Ok(values)
}
