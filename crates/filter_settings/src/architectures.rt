//! Reads SystemCallArchitectures=, which permits ABIs (systemd.exec(5)).
ghost use Rattle.std.specs.Prelude.{◌≡◌, ◌++◌, ◌&&◌, not, is_some, unwrap_or, IfOk, OnOk, flat_map};
ghost use Rattle.std.specs.List.{list_any};
ghost use Rattle.filter_settings.specs.Architectures.{is_second, is_abi_name, value_words, is_read, word_notes, value_notes, unit_refuses_second, unit_architectures_notes};

use call_table::CallTable;
use dropin_merge::unit_values::{
    FileNote, Said, Value, in_force, note_value, read_words, values_of_key, words_of_key,
};
use dropin_merge::{NoteCause, Resolved, Text};
use std::alloc::{AllocError, Global};

// Returns whether the second ABI of the table has this name.
fn is_second(table: &CallTable, word: &str) -> bool
    ensures { result ≡ is_second table.now word.now }
{
    match table.abi_name(1) {
        Some(name) => word == name,
        None => false,
    }
}

// Returns whether the word is `native` or the name of an ABI of the table.
fn is_abi_name(table: &CallTable, word: &str) -> bool
    ensures { result ≡ is_abi_name table.now word.now }
{
    word == "native" || (table.abi_name(0) == Some(word) || is_second(table, word))
}

fn names_second(table: &CallTable, words: &[Text]) -> bool
    ensures { result ≡ list_any (is_second table.now) words.now }
{
    words.iter().any(|word| is_second(table, word.as_str()))
}

// Returns whether some value can be split into words.
fn some_read(alloc: Global, values: &[Value]) -> Result<bool, AllocError>
    ensures { IfOk result (λ some. some ≡ list_any is_read values.now) }
{
    for value in values {
        if read_words(alloc, value.text.as_str())?.is_some() {
            return Ok(true);
        }
    }
    Ok(false)
}

fn note_words(
    table: &CallTable,
    value: &Value,
    words: &[Text],
    notes: &mut Vec<FileNote>,
) -> Result<(), AllocError>
    ensures { OnOk result (notes.new.items ≡ notes.old.items ++ flat_map (word_notes table.now value.now) words.now) }
{
    for word in words {
        if !is_abi_name(table, word.as_str()) {
            note_value(notes, value, NoteCause::UnknownName)?;
        }
    }
    Ok(())
}

fn note_of_value(
    alloc: Global,
    table: &CallTable,
    value: &Value,
    notes: &mut Vec<FileNote>,
) -> Result<(), AllocError>
    ensures { OnOk result (notes.new.items ≡ notes.old.items ++ value_notes table.now value.now) }
{
    match read_words(alloc, value.text.as_str())? {
        Some(words) => note_words(table, value, words.list(), notes),
        None => Ok(()),
    }
}

fn note_all(
    alloc: Global,
    table: &CallTable,
    values: &[Value],
    notes: &mut Vec<FileNote>,
) -> Result<(), AllocError>
    ensures { OnOk result (notes.new.items ≡ notes.old.items ++ flat_map (value_notes table.now) values.now) }
{
    for value in values {
        note_of_value(alloc, table, value, notes)?;
    }
    Ok(())
}

// Returns whether a list of these values is in force and none of its words names the second ABI.
fn refuses_second(
    alloc: Global,
    table: &CallTable,
    values: &[Value],
    words: &[Text],
) -> Result<bool, AllocError>
    ensures { IfOk result (λ refused. refused ≡ (is_some table.now.second && (list_any is_read values.now && not (list_any (is_second table.now) words.now)))) }
{
    let is_set = some_read(alloc, values)?;
    Ok(table.abis() == 2 && (is_set && !names_second(table, words)))
}

/// Returns whether the files of a unit refuse the second ABI of the table by a key such as SystemCallArchitectures=, with
/// its notes.
#[tactic(auto, unfolding(crate::specs::Architectures::unit_refuses_second, crate::specs::Architectures::unit_architectures_notes))]
pub fn second_refused_by_key(
    alloc: Global,
    unit: &Resolved,
    table: &CallTable,
    key: &str,
) -> Result<Said<bool>, AllocError>
    ensures means { IfOk result (λ said. said.what ≡ unit_refuses_second unit.now table.now key.now) }
    ensures noted { IfOk result (λ said. said.notes.items ≡ unit_architectures_notes unit.now table.now key.now) }
{
    let values = values_of_key(alloc, unit, key)?.what;
    let Said {
        what: words,
        mut notes,
    } = words_of_key(alloc, unit, key)?;
    note_all(alloc, table, values.as_slice(), &mut notes)?;
    let what = refuses_second(alloc, table, in_force(values.as_slice()), words.list())?;
    Ok(Said { what, notes })
}
