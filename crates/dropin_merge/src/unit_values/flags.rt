//! Reads boolean keys (systemd.syntax(7)).
ghost use Rattle.std.specs.Prelude.{◌≡◌, IfOk};
ghost use Rattle.dropin_merge.specs.unit_values.Flags.{flag_value, unit_flag, unit_flag_notes};

use crate::Resolved;
use crate::unit_values::lasting::{KeyValue, last_of_key};
use crate::unit_values::value::Said;
use std::alloc::{AllocError, Global};
use unit_grammar::read_bool;

/// A boolean; an empty text is false.
impl KeyValue for bool {
    ghost reads = { flag_value };

    fn read(text: &str) -> Option<bool> {
        if text.is_empty() {
            Some(false)
        } else {
            read_bool(text)
        }
    }
}

/// Returns the boolean that the files of a unit give to a key. The last readable value decides; an empty value or no value is
/// false. The notes list values that cannot be expanded, and then values that cannot be read.
pub fn flag_of_key(alloc: Global, unit: &Resolved, key: &str) -> Result<Said<bool>, AllocError>
    ensures last_value_decides { IfOk result (λ said. said.what ≡ unit_flag unit.now key.now) }
    ensures notes_the_unread { IfOk result (λ said. said.notes.items ≡ unit_flag_notes unit.now key.now) }
{
    last_of_key(alloc, unit, key, false)
}
