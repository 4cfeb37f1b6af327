//! Reads keys whose last readable value decides (systemd.syntax(7)).
ghost use Rattle.std.specs.Prelude.{◌≡◌, ◌++◌, ℕ, List, Option, [], IfOk, OnOk, option_and_then, unwrap_or};
ghost use Rattle.std.specs.List.{cons_option};
ghost use Rattle.std.specs.Option.{option_map};
ghost use Rattle.dropin_merge.specs.unit_values.Values.{notes_of};
ghost use Rattle.dropin_merge.specs.unit_values.Lasting.{unread_notes, unit_last, unit_last_notes, unit_last_text};

use crate::Resolved;
use crate::unit_values::keyed::assignments_of_key;
use crate::unit_values::noting::note_value;
use crate::unit_values::reading::given_value;
use crate::unit_values::value::{FileNote, Said, Value};
use std::alloc::{AllocError, Global};
use unit_grammar::{NoteCause, Text};

/// A type that the value of such a key may have.
pub trait KeyValue: Copy {
    /// The value of a text, if the text can be read.
    ghost reads: { List ℕ → Option Self };

    /// Returns the value of a text, if the text can be read.
    fn read(text: &str) -> Option<Self>
        ensures { result ≡ reads text.now };
}

// Returns the value after one more assignment. An unreadable value is noted and leaves the last one.
fn next_read<T: KeyValue>(
    last: T,
    value: Option<Value>,
    notes: &mut Vec<FileNote>,
) -> Result<T, AllocError>
    ensures means { IfOk result (λ next. next ≡ unwrap_or (option_and_then (λ value. T.reads value.text) value) last) }
    ensures noted { OnOk result (notes.new.items ≡ notes.old.items ++ unread_notes T.reads (cons_option value [])) }
{
    let Some(value) = value else {
        return Ok(last);
    };
    match T::read(value.text.as_str()) {
        Some(next) => Ok(next),
        None => {
            note_value(notes, &value, NoteCause::Value)?;
            Ok(last)
        }
    }
}

/// Returns the last readable value that the files of a unit give to such a key, or the default without one. The notes list
/// values that cannot be expanded, and then values that cannot be read.
#[tactic(auto, unfolding(crate::specs::unit_values::Lasting::unit_last, crate::specs::unit_values::Lasting::unit_last_notes))]
pub fn last_of_key<T: KeyValue>(
    alloc: Global,
    unit: &Resolved,
    key: &str,
    default: T,
) -> Result<Said<T>, AllocError>
    ensures last_value_decides { IfOk result (λ said. said.what ≡ unit_last T.reads default unit.now key.now) }
    ensures notes_the_unread { IfOk result (λ said. said.notes.items ≡ unit_last_notes T.reads unit.now key.now) }
{
    let mut last = default;
    let mut notes = Vec::new(alloc);
    let mut unread = Vec::new(alloc);
    for (place, assignment) in assignments_of_key(unit, key) {
        let value = given_value(
            alloc,
            unit.systemd,
            &unit.name,
            key,
            place,
            assignment,
            &mut notes,
        )?;
        last = next_read(last, value, &mut unread)?;
    }
    let said = Said {
        what: last,
        notes: unread,
    };
    said.behind(notes)
}

// Returns the text after one more assignment.
fn next_text(last: Text, value: Option<Value>) -> Text
    ensures { result ≡ unwrap_or (option_map (λ value. value.text) value) last }
{
    match value {
        Some(Value { place: _, text }) => text,
        None => last,
    }
}

/// Returns the last text that the files of a unit give to a key, or an empty text without one. Every text is a value of such
/// a key. The notes list values that cannot be expanded.
#[tactic(auto, unfolding(crate::specs::unit_values::Lasting::unit_last_text))]
pub fn last_text_of_key(alloc: Global, unit: &Resolved, key: &str) -> Result<Said<Text>, AllocError>
    ensures last_value_decides { IfOk result (λ said. said.what ≡ unit_last_text unit.now key.now) }
    ensures notes_the_others { IfOk result (λ said. said.notes.items ≡ notes_of unit.now key.now) }
{
    let mut last = Text::new(alloc, "")?;
    let mut notes = Vec::new(alloc);
    for (place, assignment) in assignments_of_key(unit, key) {
        let value = given_value(
            alloc,
            unit.systemd,
            &unit.name,
            key,
            place,
            assignment,
            &mut notes,
        )?;
        last = next_text(last, value);
    }
    Ok(Said { what: last, notes })
}
