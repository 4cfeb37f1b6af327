//! Reads SystemCallFilter=, which allows or denies a list of calls and groups (systemd.exec(5)).
ghost use Rattle.std.specs.Prelude.{◌≡◌, Some, IfOk, option_and_then};
ghost use Rattle.std.specs.Option.{option_map};
ghost use Rattle.filter_settings.specs.CallLists.{implied, begun_by, unless_idle, write_mention, as_loaded, call_list, call_notes};
ghost use Rattle.filter_settings.specs.filter_rules.Calls.{is_allowing};

use crate::filter_rules::{CallList, Mention, Mentions, Mode, denies_no_call};
use crate::key_lists::KeyList;
use crate::lines::in_force;
use crate::list_words::{add_lines, note_words};
use crate::modes::{list_mode, mode_of, next_mode};
use call_table::CallTable;
use dropin_merge::unit_values::{FileNote, Listed};
use dropin_merge::{Text, Version};
use std::alloc::{AllocError, Global};

// Returns the words that a list of this mode begins with.
fn implied(alloc: Global, mode: Mode) -> Result<Vec<Mention>, AllocError>
    ensures { IfOk result (λ mentions. mentions.items ≡ implied mode) }
{
    let mut mentions = Vec::new(alloc);
    if mode == Mode::Allow {
        mentions.push(Mention {
            adds: true,
            name: Text::new(alloc, "@default")?,
            action: None,
        })?;
    }
    Ok(mentions)
}

// Returns the list that these lines make.
fn begun_by(
    alloc: Global,
    systemd: Option<Version>,
    table: &CallTable,
    lines: &[Listed],
) -> Result<Option<CallList>, AllocError>
    ensures { IfOk result (λ list. list ≡ begun_by systemd table.now lines.now) }
{
    let Some(mode) = list_mode(lines) else {
        return Ok(None);
    };
    let mut mentions = implied(alloc, mode)?;
    add_lines(alloc, systemd, table, mode, lines, &mut mentions)?;
    Ok(Some(CallList {
        mode,
        mentions: Mentions::new(mentions),
        hides_unknown: false,
    }))
}

// Returns the word by which systemd 257 allows write(2).
fn write_mention(alloc: Global, mode: Mode) -> Result<Mention, AllocError>
    ensures { IfOk result (λ mention. mention ≡ write_mention mode) }
{
    Ok(Mention {
        adds: mode == Mode::Allow,
        name: Text::new(alloc, "write")?,
        action: None,
    })
}

// Returns the list as this version of systemd loads it.
fn as_loaded(
    alloc: Global,
    systemd: Option<Version>,
    mut list: CallList,
) -> Result<CallList, AllocError>
    ensures { IfOk result (λ loaded. loaded ≡ as_loaded systemd list) }
{
    if matches!(systemd, Some(Version::V257)) {
        let word = write_mention(alloc, list.mode)?;
        list.mentions.push(word)?;
        list.hides_unknown = list.mode == Mode::Allow;
    }
    Ok(list)
}

// Returns the list as this version of systemd loads it. None if it sets no filter.
fn loaded(
    alloc: Global,
    version: Version,
    table: &CallTable,
    list: CallList,
) -> Result<Option<CallList>, AllocError>
    ensures { IfOk result (λ loaded. loaded ≡ option_map (as_loaded (Some version)) (unless_idle table.now list)) }
{
    if denies_no_call(alloc, table, &list)? {
        return Ok(None);
    }
    Ok(Some(as_loaded(alloc, Some(version), list)?))
}

// Returns the list of the lines in force.
fn call_list(
    alloc: Global,
    systemd: Option<Version>,
    table: &CallTable,
    lines: &[Listed],
) -> Result<Option<CallList>, AllocError>
    ensures { IfOk result (λ list. list ≡ call_list systemd table.now lines.now) }
{
    let begun = begun_by(alloc, systemd, table, lines)?;
    match systemd {
        None => Ok(begun),
        Some(version) => match begun {
            Some(list) => loaded(alloc, version, table, list),
            None => Ok(None),
        },
    }
}

impl KeyList for CallList {
    ghost list_of = { call_list };

    ghost notes_of = { call_notes };

    // Notes each line by the mode of the list to which its words are added.
    fn read(
        alloc: Global,
        systemd: Option<Version>,
        table: &CallTable,
        all: &[Listed],
        notes: &mut Vec<FileNote>,
    ) -> Result<Option<Self>, AllocError> {
        let mut mode = None;
        for one in all {
            note_words::<Mention>(
                systemd,
                table,
                mode.unwrap_or(mode_of(&one.line)),
                one,
                notes,
            )?;
            mode = next_mode(mode, one);
        }
        call_list(alloc, systemd, table, in_force(all))
    }
}
