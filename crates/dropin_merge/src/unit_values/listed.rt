//! Reads lists of lines. An empty value resets the lines before it (systemd.exec(5), SystemCallFilter=).
ghost use Rattle.std.specs.Prelude.{◌≡◌, ◌++◌, [], IfOk, OnOk};
ghost use Rattle.std.specs.List.{cons_option, filter_map};
ghost use Rattle.dropin_merge.specs.unit_values.Lasting.{unread_notes};
ghost use Rattle.dropin_merge.specs.unit_values.Lines.{listed_line};
ghost use Rattle.dropin_merge.specs.unit_values.Listed.{listed, is_reset, unit_listed, unit_listed_notes};

use crate::Resolved;
use crate::unit_values::keyed::assignments_of_key;
use crate::unit_values::lines::{Line, read_line};
use crate::unit_values::noting::note_value;
use crate::unit_values::reading::given_value;
use crate::unit_values::value::{FileNote, Said, Value};
use std::alloc::{AllocError, Global};
use unit_grammar::NoteCause;

/// A value of a list that could be split into words.
#[derive(Drop)]
pub struct Listed {
    /// The value, with its place.
    pub value: Value,
    /// The line of the value. An empty value has a line without words.
    pub line: Line,
}

impl Listed {
    /// Returns whether the value is empty, which resets the lines before it.
    pub fn is_reset(&self) -> bool
        ensures empty_value { result ≡ is_reset self.now }
    {
        self.value.text.as_str().is_empty()
    }
}

fn line_of(alloc: Global, text: &str) -> Result<Option<Line>, AllocError>
    ensures { IfOk result (λ line. line ≡ listed_line text.now) }
{
    if text.is_empty() {
        Ok(Some(Line::empty(alloc)))
    } else {
        read_line(alloc, text)
    }
}

// Appends the line that one more assignment gives, or notes that its value cannot be split.
fn add_listed(
    alloc: Global,
    value: Option<Value>,
    all: &mut Vec<Listed>,
    notes: &mut Vec<FileNote>,
) -> Result<(), AllocError>
    ensures means { OnOk result (all.new.items ≡ all.old.items ++ filter_map listed (cons_option value [])) }
    ensures noted { OnOk result (notes.new.items ≡ notes.old.items ++ unread_notes listed_line (cons_option value [])) }
{
    let Some(value) = value else {
        return Ok(());
    };
    match line_of(alloc, value.text.as_str())? {
        Some(line) => {
            all.push(Listed { value, line })?;
            Ok(())
        }
        None => note_value(notes, &value, NoteCause::Value),
    }
}

/// Returns the lines that the files of a unit give to such a key, with their values, in order. They include empty values and
/// the lines that these reset. The notes list values that cannot be expanded, and then values that cannot be split.
#[tactic(auto, unfolding(crate::specs::unit_values::Listed::unit_listed, crate::specs::unit_values::Listed::unit_listed_notes))]
pub fn lines_of_key(
    alloc: Global,
    unit: &Resolved,
    key: &str,
) -> Result<Said<Vec<Listed>>, AllocError>
    ensures all_in_order { IfOk result (λ said. said.what.items ≡ unit_listed unit.now key.now) }
    ensures notes_the_unread { IfOk result (λ said. said.notes.items ≡ unit_listed_notes unit.now key.now) }
{
    let mut all = Vec::new(alloc);
    let mut notes = Vec::new(alloc);
    let mut unread = Vec::new(alloc);
    for (place, assignment) in assignments_of_key(unit, key) {
        let value = given_value(
            alloc,
            unit.systemd,
            &unit.name,
            key,
            place,
            assignment,
            &mut notes,
        )?;
        add_listed(alloc, value, &mut all, &mut unread)?;
    }
    let said = Said {
        what: all,
        notes: unread,
    };
    said.behind(notes)
}
