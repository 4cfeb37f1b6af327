//! Reads RestrictAddressFamilies=, which allows or denies a list of address families (systemd.exec(5)).
ghost use Rattle.std.specs.Prelude.{◌≡◌, ◌++◌, None, Some, IfOk, OnOk, not};
ghost use Rattle.std.specs.List.{after_last, list_any, suffix_len};
ghost use Rattle.filter_settings.specs.FamilyLists.{first_name, family_name, family_number, is_none_word, is_none_line, list_of, begun_by, going_on, nothing_allowed, begun_anew, unless_idle, family_list, line_notes, family_notes};

use crate::filter_rules::{FamilyList, FamilyMention, FamilyMentions, Mode, denies_no_family};
use crate::key_lists::KeyList;
use crate::lines::in_force;
use crate::list_words::{ListMention, add_lines, note_words};
use crate::modes::{list_mode, mode_of};
use call_table::CallTable;
use dropin_merge::unit_values::{FileNote, Listed, Value, note_value};
use dropin_merge::{NoteCause, Text, Version};
use std::alloc::{AllocError, Global};

// Returns the first name of a family that has a second one.
fn first_name(word: &str) -> &str
    ensures { result.now ≡ first_name word.now }
{
    match word {
        "AF_LOCAL" | "AF_FILE" => "AF_UNIX",
        "AF_ROUTE" => "AF_NETLINK",
        _ => word,
    }
}

fn family_name(systemd: Option<Version>, word: &str) -> &str
    ensures { result.now ≡ family_name systemd word.now }
{
    match systemd {
        None => word,
        Some(_) => first_name(word),
    }
}

fn family_number(systemd: Option<Version>, table: &CallTable, word: &str) -> Option<u32>
    ensures { result ≡ family_number systemd table.now word.now }
{
    table.family(family_name(systemd, word))
}

fn is_none_word(words: &[Text]) -> bool
    ensures { result ≡ is_none_word words.now }
{
    match words {
        [word] => word.as_str() == "none",
        _ => false,
    }
}

// Returns whether a value is just the word `none`.
fn is_none_line(one: &Listed) -> bool
    ensures { result ≡ is_none_line one.now }
{
    !one.line.is_inverted && is_none_word(one.line.words.list())
}

fn has_none(lines: &[Listed]) -> bool
    ensures { result ≡ list_any is_none_line lines.now }
{
    lines.iter().any(|one| is_none_line(one))
}

fn count_behind_none(lines: &[Listed]) -> usize
    ensures { result ≡ suffix_len (λ one. not (is_none_line one)) lines.now }
{
    lines
        .iter()
        .rev()
        .take_while(|one| !is_none_line(one))
        .count()
}

// Returns the lines after the last `none`.
fn behind_none(lines: &[Listed]) -> &[Listed]
    ensures { result.now ≡ after_last is_none_line lines.now }
{
    &lines[lines.len() - count_behind_none(lines)..]
}

impl ListMention for FamilyMention {
    ghost use Rattle.filter_settings.specs.FamilyLists.{family_number, family_mention, family_causes};

    ghost mention_of = { λ systemd table mode adds word. family_mention systemd table adds word };

    ghost causes_of = { λ systemd table mode adds word. family_causes (family_number systemd table word) };

    fn read(
        _: Global,
        systemd: Option<Version>,
        table: &CallTable,
        _: Mode,
        adds: bool,
        word: &str,
    ) -> Result<Option<Self>, AllocError> {
        match family_number(systemd, table, word) {
            Some(number) => Ok(Some(FamilyMention { adds, number })),
            None => Ok(None),
        }
    }

    fn note(
        systemd: Option<Version>,
        table: &CallTable,
        _: Mode,
        _: bool,
        value: &Value,
        word: &str,
        notes: &mut Vec<FileNote>,
    ) -> Result<(), AllocError> {
        match family_number(systemd, table, word) {
            Some(_) => Ok(()),
            None => note_value(notes, value, NoteCause::UnknownName),
        }
    }
}

// Returns a list of this mode with the words of these lines.
fn list_of(
    alloc: Global,
    systemd: Option<Version>,
    table: &CallTable,
    mode: Mode,
    lines: &[Listed],
) -> Result<FamilyList, AllocError>
    ensures { IfOk result (λ list. list ≡ list_of systemd table.now mode lines.now) }
{
    let mut mentions: Vec<FamilyMention> = Vec::new(alloc);
    add_lines(alloc, systemd, table, mode, lines, &mut mentions)?;
    Ok(FamilyList {
        mode,
        mentions: FamilyMentions::new(mentions),
    })
}

// Returns the list that these lines make. The first line fixes the mode.
fn begun_by(
    alloc: Global,
    systemd: Option<Version>,
    table: &CallTable,
    lines: &[Listed],
) -> Result<Option<FamilyList>, AllocError>
    ensures { IfOk result (λ list. list ≡ begun_by systemd table.now lines.now) }
{
    match list_mode(lines) {
        Some(mode) => Ok(Some(list_of(alloc, systemd, table, mode, lines)?)),
        None => Ok(None),
    }
}

// Returns the list of these lines. The lines after the last `none` continue a list that allows nothing.
fn going_on(
    alloc: Global,
    table: &CallTable,
    lines: &[Listed],
) -> Result<Option<FamilyList>, AllocError>
    ensures { IfOk result (λ list. list ≡ going_on table.now lines.now) }
{
    if !has_none(lines) {
        return begun_by(alloc, None, table, lines);
    }
    Ok(Some(list_of(alloc, None, table, Mode::Allow, behind_none(lines))?))
}

// Returns the list of these lines. The first line after the last `none` begins a list of its own. Without such a line
// nothing is allowed.
fn begun_anew(
    alloc: Global,
    systemd: Option<Version>,
    table: &CallTable,
    lines: &[Listed],
) -> Result<Option<FamilyList>, AllocError>
    ensures { IfOk result (λ list. list ≡ begun_anew systemd table.now lines.now) }
{
    if !has_none(lines) {
        return begun_by(alloc, systemd, table, lines);
    }
    match begun_by(alloc, systemd, table, behind_none(lines))? {
        Some(list) => Ok(Some(list)),
        None => Ok(Some(FamilyList {
            mode: Mode::Allow,
            mentions: FamilyMentions::empty(alloc),
        })),
    }
}

// Returns the list. None if it sets no filter.
fn unless_idle(table: &CallTable, list: FamilyList) -> Option<FamilyList>
    ensures { result ≡ unless_idle table.now list }
{
    if denies_no_family(table, &list) {
        None
    } else {
        Some(list)
    }
}

// Returns the list of the lines in force.
fn family_list(
    alloc: Global,
    systemd: Option<Version>,
    table: &CallTable,
    lines: &[Listed],
) -> Result<Option<FamilyList>, AllocError>
    ensures { IfOk result (λ list. list ≡ family_list systemd table.now lines.now) }
{
    match systemd {
        None => going_on(alloc, table, lines),
        Some(version) => match begun_anew(alloc, Some(version), table, lines)? {
            Some(list) => Ok(unless_idle(table, list)),
            None => Ok(None),
        },
    }
}

// Notes the families of a line that the table lacks. The word `none` is not a family.
fn note_line(
    systemd: Option<Version>,
    table: &CallTable,
    one: &Listed,
    notes: &mut Vec<FileNote>,
) -> Result<(), AllocError>
    ensures { OnOk result (notes.new.items ≡ notes.old.items ++ line_notes systemd table.now one.now) }
{
    if is_none_line(one) {
        return Ok(());
    }
    note_words::<FamilyMention>(systemd, table, mode_of(&one.line), one, notes)
}

impl KeyList for FamilyList {
    ghost list_of = { family_list };

    ghost notes_of = { family_notes };

    fn read(
        alloc: Global,
        systemd: Option<Version>,
        table: &CallTable,
        all: &[Listed],
        notes: &mut Vec<FileNote>,
    ) -> Result<Option<Self>, AllocError> {
        for one in all {
            note_line(systemd, table, one, notes)?;
        }
        family_list(alloc, systemd, table, in_force(all))
    }
}
