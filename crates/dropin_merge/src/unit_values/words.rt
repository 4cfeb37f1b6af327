//! Reads keys that are lists of words (systemd.exec(5), systemd.syntax(7)).
ghost use Rattle.std.specs.Prelude.{◌≡◌, ◌++◌, [], IfOk, OnOk, unwrap_or};
ghost use Rattle.std.specs.List.{cons_option};
ghost use Rattle.std.specs.Option.{option_map};
ghost use Rattle.dropin_merge.specs.unit_values.Lasting.{unread_notes};
ghost use Rattle.dropin_merge.specs.unit_values.Words.{split, words_behind, unit_words, unit_words_notes};

use crate::Resolved;
use crate::unit_values::keyed::assignments_of_key;
use crate::unit_values::lines::{Words, read_words};
use crate::unit_values::noting::note_value;
use crate::unit_values::reading::given_value;
use crate::unit_values::value::{FileNote, Said, Value};
use std::alloc::{AllocError, Global};
use unit_grammar::NoteCause;

// Returns the words after one more assignment. A value that cannot be split is noted and leaves the words.
fn next_words(
    alloc: Global,
    words: Words,
    value: Option<Value>,
    notes: &mut Vec<FileNote>,
) -> Result<Words, AllocError>
    ensures means { IfOk result (λ next. next ≡ unwrap_or (option_map (words_behind words) value) words) }
    ensures noted { OnOk result (notes.new.items ≡ notes.old.items ++ unread_notes split (cons_option value [])) }
{
    let Some(value) = value else {
        return Ok(words);
    };
    if value.text.as_str().is_empty() {
        return Ok(Words::empty(alloc));
    }
    match read_words(alloc, value.text.as_str())? {
        Some(more) => words.and(more),
        None => {
            note_value(notes, &value, NoteCause::Value)?;
            Ok(words)
        }
    }
}

/// Returns the words that the files of a unit give to such a key in the values after the last empty one. The notes list
/// values that cannot be expanded, and then values that cannot be split.
#[tactic(auto, unfolding(crate::specs::unit_values::Words::unit_words, crate::specs::unit_values::Words::unit_words_notes))]
pub fn words_of_key(alloc: Global, unit: &Resolved, key: &str) -> Result<Said<Words>, AllocError>
    ensures values_in_force { IfOk result (λ said. said.what ≡ unit_words unit.now key.now) }
    ensures notes_the_unread { IfOk result (λ said. said.notes.items ≡ unit_words_notes unit.now key.now) }
{
    let mut words = Words::empty(alloc);
    let mut notes = Vec::new(alloc);
    let mut unread = Vec::new(alloc);
    for (place, assignment) in assignments_of_key(unit, key) {
        let value = given_value(
            alloc,
            unit.systemd,
            &unit.name,
            key,
            place,
            assignment,
            &mut notes,
        )?;
        words = next_words(alloc, words, value, &mut unread)?;
    }
    let said = Said {
        what: words,
        notes: unread,
    };
    said.behind(notes)
}
