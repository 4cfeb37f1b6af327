//! Reads RestrictNamespaces=, which permits types of namespaces (systemd.exec(5), namespaces(7)).
ghost use Rattle.std.specs.Prelude.{◌≡◌, ◌++◌, IfOk, OnOk, flat_map};
ghost use Rattle.filter_settings.specs.Namespaces.{switch_of, is_plain, begins, has_word, listed_type, says_by, says, is_type_name, is_type_word, is_valid, counts, word_notes, list_notes, line_notes, namespaces_of, namespaces_notes, unit_namespaces, unit_namespaces_notes};
ghost use Rattle.std.specs.List.{list_all};
ghost use Rattle.filter_settings.specs.Steps.{next_type, next_types, types_behind, next_begun, begun_behind};

use crate::filter_rules::{NamespaceTypes, all_types};
use call_rules::read_bool;
use dropin_merge::linux_numbers::namespaces::NamespaceType;
use dropin_merge::unit_values::{FileNote, Line, Listed, Said, Value, lines_of_key, note_value};
use dropin_merge::{NoteCause, Resolved, Text, Version};
use std::alloc::{AllocError, Global};

// Reads a value that is a boolean: true permits no type, and false permits all.
fn switch_of(one: &Listed) -> Option<bool>
    ensures { result ≡ switch_of one.now }
{
    read_bool(one.value.text.as_str())
}

// Returns whether a value is a list without `~`.
fn is_plain(one: &Listed) -> bool
    ensures { result ≡ is_plain one.now }
{
    switch_of(one).is_none() && !one.line.is_inverted
}

// Returns whether a plain list after this value adds its types.
fn begins(systemd: Option<Version>, one: &Listed) -> bool
    ensures { result ≡ begins systemd one.now }
{
    match systemd {
        None => is_plain(one),
        Some(_) => true,
    }
}

fn has_word(name: &str, line: &Line) -> bool
    ensures { result ≡ has_word name.now line.now }
{
    line.words.list().iter().any(|word| word.as_str() == name)
}

// Returns what a list says of a type: permitted, forbidden, or nothing. `has_name` says if the list has its name.
fn listed_type(is_inverted: bool, is_later: bool, has_name: bool) -> Option<bool>
    ensures { result ≡ listed_type is_inverted is_later has_name }
{
    if has_name {
        Some(!is_inverted)
    } else if is_inverted || is_later {
        None
    } else {
        Some(false)
    }
}

fn says_by(switch: Option<bool>, is_later: bool, kind: NamespaceType, line: &Line) -> Option<bool>
    ensures { result ≡ says_by switch is_later kind line.now }
{
    match switch {
        Some(on) => Some(!on),
        None => listed_type(line.is_inverted, is_later, has_word(kind.name(), line)),
    }
}

// Returns what a value says of a type: permitted, forbidden, or nothing. `is_later` says if a plain list adds its types.
fn says(is_later: bool, kind: NamespaceType, one: &Listed) -> Option<bool>
    ensures { result ≡ says is_later kind one.now }
{
    if one.is_reset() {
        return Some(true);
    }
    says_by(switch_of(one), is_later, kind, &one.line)
}

fn next_type(is_later: bool, one: &Listed, kind: NamespaceType, was: bool) -> bool
    ensures { result ≡ next_type is_later one.now kind was }
{
    says(is_later, kind, one).unwrap_or(was)
}

fn is_type_name(word: &str) -> bool
    ensures { result ≡ is_type_name word.now }
{
    all_types().iter().any(|kind| word == kind.name())
}

fn is_type_word(word: &str) -> bool
    ensures { result ≡ is_type_word word.now }
{
    is_type_name(word) || word == "time"
}

fn are_type_words(words: &[Text]) -> bool
    ensures { result ≡ list_all is_type_word words.now }
{
    words.iter().all(|word| is_type_word(word.as_str()))
}

// Returns whether a value is a boolean, or a list of types.
fn is_valid(one: &Listed) -> bool
    ensures { result ≡ is_valid one.now }
{
    switch_of(one).is_some() || are_type_words(one.line.words.list())
}

fn counts(systemd: Option<Version>, one: &Listed) -> bool
    ensures { result ≡ counts systemd one.now }
{
    match systemd {
        None => true,
        Some(_) => is_valid(one),
    }
}

// Returns the permitted types after one more value.
fn next_types(is_later: bool, one: &Listed, types: NamespaceTypes) -> NamespaceTypes
    ensures { result ≡ next_types is_later one.now types }
{
    NamespaceTypes {
        cgroup: next_type(is_later, one, NamespaceType::Cgroup, types.cgroup),
        ipc: next_type(is_later, one, NamespaceType::Ipc, types.ipc),
        net: next_type(is_later, one, NamespaceType::Net, types.net),
        mnt: next_type(is_later, one, NamespaceType::Mnt, types.mnt),
        pid: next_type(is_later, one, NamespaceType::Pid, types.pid),
        user: next_type(is_later, one, NamespaceType::User, types.user),
        uts: next_type(is_later, one, NamespaceType::Uts, types.uts),
    }
}

// Returns the permitted types after one more value, which may be ignored.
fn types_behind(
    systemd: Option<Version>,
    is_later: bool,
    one: &Listed,
    types: NamespaceTypes,
) -> NamespaceTypes
    ensures { result ≡ types_behind systemd is_later one.now types }
{
    if counts(systemd, one) {
        next_types(is_later, one, types)
    } else {
        types
    }
}

// Returns whether a plain list after this value adds its types. `had` says it of the values before.
fn next_begun(systemd: Option<Version>, had: bool, one: &Listed) -> bool
    ensures { result ≡ next_begun systemd had one.now }
{
    !one.is_reset() && (had || begins(systemd, one))
}

// Returns the same for a value that may be ignored.
fn begun_behind(systemd: Option<Version>, had: bool, one: &Listed) -> bool
    ensures { result ≡ begun_behind systemd had one.now }
{
    if counts(systemd, one) {
        next_begun(systemd, had, one)
    } else {
        had
    }
}

/// Permits all types.
const ALL_PERMITTED: NamespaceTypes = NamespaceTypes {
    cgroup: true,
    ipc: true,
    net: true,
    mnt: true,
    pid: true,
    user: true,
    uts: true,
};

// Reads the values of such a key in their order.
fn namespaces_of(systemd: Option<Version>, all: &[Listed]) -> NamespaceTypes
    ensures { result ≡ namespaces_of systemd all.now }
{
    let mut types = ALL_PERMITTED;
    let mut is_begun = false;
    for one in all {
        types = types_behind(systemd, is_begun, one, types);
        is_begun = begun_behind(systemd, is_begun, one);
    }
    types
}

fn note_words(value: &Value, words: &[Text], notes: &mut Vec<FileNote>) -> Result<(), AllocError>
    ensures { OnOk result (notes.new.items ≡ notes.old.items ++ flat_map (word_notes value.now) words.now) }
{
    for word in words {
        if !is_type_name(word.as_str()) {
            note_value(notes, value, NoteCause::Value)?;
        }
    }
    Ok(())
}

// Notes the words of a list that are not types.
fn note_list(one: &Listed, notes: &mut Vec<FileNote>) -> Result<(), AllocError>
    ensures { OnOk result (notes.new.items ≡ notes.old.items ++ list_notes one.now) }
{
    if switch_of(one).is_some() {
        return Ok(());
    }
    note_words(&one.value, one.line.words.list(), notes)
}

// Adds the notes on a value.
fn note_line(
    systemd: Option<Version>,
    one: &Listed,
    notes: &mut Vec<FileNote>,
) -> Result<(), AllocError>
    ensures { OnOk result (notes.new.items ≡ notes.old.items ++ line_notes systemd one.now) }
{
    match systemd {
        None => note_list(one, notes),
        Some(_) if is_valid(one) => Ok(()),
        Some(_) => note_value(notes, &one.value, NoteCause::Value),
    }
}

// Adds the notes on the values.
fn note_all(
    systemd: Option<Version>,
    all: &[Listed],
    notes: &mut Vec<FileNote>,
) -> Result<(), AllocError>
    ensures { OnOk result (notes.new.items ≡ notes.old.items ++ namespaces_notes systemd all.now) }
{
    for one in all {
        note_line(systemd, one, notes)?;
    }
    Ok(())
}

/// Returns the types that the files of a unit permit by a key such as RestrictNamespaces=, with its notes.
#[tactic(auto, unfolding(crate::specs::Namespaces::unit_namespaces, crate::specs::Namespaces::unit_namespaces_notes))]
pub fn namespaces_of_key(
    alloc: Global,
    unit: &Resolved,
    key: &str,
) -> Result<Said<NamespaceTypes>, AllocError>
    ensures means { IfOk result (λ said. said.what ≡ unit_namespaces unit.now key.now) }
    ensures noted { IfOk result (λ said. said.notes.items ≡ unit_namespaces_notes unit.now key.now) }
{
    let Said {
        what: all,
        mut notes,
    } = lines_of_key(alloc, unit, key)?;
    note_all(unit.systemd, all.as_slice(), &mut notes)?;
    Ok(Said {
        what: namespaces_of(unit.systemd, all.as_slice()),
        notes,
    })
}
