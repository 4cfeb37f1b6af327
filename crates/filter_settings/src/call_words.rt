//! Reads the words of SystemCallFilter= (systemd.exec(5)).
ghost use Rattle.std.specs.Prelude.{◌≡◌, ◌++◌, ◌∷◌, [], Some, is_some, if◌then◌else◌, IfOk, OnOk};
ghost use Rattle.std.specs.Option.{option_map};
ghost use Rattle.dropin_merge.specs.unit_grammar.declared.notes.NoteCause.TheVariants.{Value as ValueCause, UnknownName};
ghost use Rattle.dropin_merge.specs.unit_values.Notes.{notes_at};
ghost use Rattle.call_table.specs.Lookups.{group_named};
ghost use Rattle.filter_settings.specs.CallWords.{may_have_suffix, is_inverted, suffix_of, suffixed, word_of, is_known, mention_of, seen};

use crate::error_actions::error_action;
use crate::filter_rules::{Mention, Mode};
use crate::list_words::ListMention;
use call_rules::Action;
use call_table::{CallTable, behind_at};
use dropin_merge::unit_values::{FileNote, Value, note_value};
use dropin_merge::{NoteCause, Text, Version};
use std::alloc::{AllocError, Global};

/// A word of a line.
#[derive(Clone, Copy)]
struct CallWord<'a> {
    name: &'a str,
    // The action that its suffix names.
    action: Option<Action>,
    // Whether it has a suffix that is ignored.
    has_stray: bool,
}

/// Says how the suffix of a word is read.
#[derive(Clone, Copy)]
enum Suffix {
    /// It is the action for the calls of the word.
    IsAction,
    /// It is ignored.
    Dropped,
    /// The word cannot be read with it.
    Refused,
}

// Returns whether such a word may have a suffix. Only a word that is added to a list that denies may have one.
fn may_have_suffix(mode: Mode, adds: bool) -> bool
    ensures { result ≡ may_have_suffix mode adds }
{
    match mode {
        Mode::Allow => false,
        Mode::Deny => adds,
    }
}

// Returns whether the word is on a line with `~`.
fn is_inverted(mode: Mode, adds: bool) -> bool
    ensures { result ≡ is_inverted mode adds }
{
    match mode {
        Mode::Allow => !adds,
        Mode::Deny => adds,
    }
}

fn suffix_of(systemd: Option<Version>, mode: Mode, adds: bool) -> Suffix
    ensures { result ≡ suffix_of systemd mode adds }
{
    match systemd {
        None if may_have_suffix(mode, adds) => Suffix::IsAction,
        None => Suffix::Dropped,
        Some(_) if is_inverted(mode, adds) => Suffix::IsAction,
        Some(_) => Suffix::Refused,
    }
}

fn read_suffixed<'a>(kind: Suffix, name: &'a str, suffix: &str) -> Option<CallWord<'a>>
    ensures { option_map seen result ≡ suffixed kind name.now suffix.now }
{
    match kind {
        Suffix::IsAction => Some(CallWord {
            name,
            action: Some(error_action(suffix)?),
            has_stray: false,
        }),
        Suffix::Dropped => Some(CallWord {
            name,
            action: None,
            has_stray: true,
        }),
        Suffix::Refused => None,
    }
}

// Reads a word. None if it cannot be read.
fn read_word(kind: Suffix, word: &str) -> Option<CallWord<'_>>
    ensures { option_map seen result ≡ word_of kind word.now }
{
    match word.split_once(':') {
        Some((name, suffix)) => read_suffixed(kind, name, suffix),
        None => Some(CallWord {
            name: word,
            action: None,
            has_stray: false,
        }),
    }
}

fn has_group(table: &CallTable, group: &str) -> bool
    ensures { result ≡ is_some (group_named group.now table.now.groups) }
{
    table.members(group).is_some()
}

// Returns whether the table has the call or the group of this name.
fn is_known(table: &CallTable, name: &str) -> bool
    ensures { result ≡ is_known table.now name.now }
{
    match behind_at(name) {
        Some(group) => has_group(table, group),
        None => table.position(name).is_some(),
    }
}

// Makes the mention of a known name. If the word has an action, the calls are listed with it.
fn known_mention(
    alloc: Global,
    table: &CallTable,
    adds: bool,
    word: CallWord,
) -> Result<Option<Mention>, AllocError>
    ensures { IfOk result (λ mention. mention ≡ mention_of table.now adds (Some (seen word.entry))) }
{
    if is_known(table, word.name) {
        Ok(Some(Mention {
            adds: adds || word.action.is_some(),
            name: Text::new(alloc, word.name)?,
            action: word.action,
        }))
    } else {
        Ok(None)
    }
}

fn note_stray(has_stray: bool, value: &Value, notes: &mut Vec<FileNote>) -> Result<(), AllocError>
    ensures { OnOk result (notes.new.items ≡ notes.old.items ++ notes_at value.now (if has_stray then ValueCause ∷ [] else [])) }
{
    if has_stray {
        note_value(notes, value, NoteCause::Value)?;
    }
    Ok(())
}

fn note_unknown(
    table: &CallTable,
    name: &str,
    value: &Value,
    notes: &mut Vec<FileNote>,
) -> Result<(), AllocError>
    ensures { OnOk result (notes.new.items ≡ notes.old.items ++ notes_at value.now (if is_known table.now name.now then [] else UnknownName ∷ [])) }
{
    if !is_known(table, name) {
        note_value(notes, value, NoteCause::UnknownName)?;
    }
    Ok(())
}

impl ListMention for Mention {
    ghost use Rattle.filter_settings.specs.CallWords.{word_mention, word_causes};

    ghost mention_of = { word_mention };

    ghost causes_of = { word_causes };

    // Returns the mention, if the word can be read and the table has its name.
    fn read(
        alloc: Global,
        systemd: Option<Version>,
        table: &CallTable,
        mode: Mode,
        adds: bool,
        word: &str,
    ) -> Result<Option<Self>, AllocError> {
        match read_word(suffix_of(systemd, mode, adds), word) {
            Some(read) => known_mention(alloc, table, adds, read),
            None => Ok(None),
        }
    }

    // Notes that the word cannot be read. If it can be, notes a suffix that is ignored, and then a name that the table
    // lacks.
    fn note(
        systemd: Option<Version>,
        table: &CallTable,
        mode: Mode,
        adds: bool,
        value: &Value,
        word: &str,
        notes: &mut Vec<FileNote>,
    ) -> Result<(), AllocError> {
        match read_word(suffix_of(systemd, mode, adds), word) {
            Some(read) => {
                note_stray(read.has_stray, value, notes)?;
                note_unknown(table, read.name, value, notes)
            }
            None => note_value(notes, value, NoteCause::Value),
        }
    }
}
