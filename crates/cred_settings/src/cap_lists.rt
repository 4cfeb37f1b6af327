//! Makes sets of capabilities from lines that add to them or take off (systemd.exec(5)).
ghost use Rattle.std.specs.Prelude.{◌≡◌, ◌++◌, IfOk, OnOk, flat_map};
ghost use Rattle.cred_settings.specs.CapLists.{with_plain, with_inverted, with_listed, caps_by, caps_read, names_notes, unit_caps, unit_caps_notes};

use crate::cap_names::{named_caps, note_words};
use crate::cap_sums::{counted, summed};
use dropin_merge::unit_values::{FileNote, Listed, Said, lines_of_key};
use dropin_merge::{Resolved, Text};
use site_table::{CapSet, Version};
use std::alloc::{AllocError, Global};

// Returns the set after a plain line with these capabilities.
fn with_plain(default: CapSet, set: CapSet, named: CapSet) -> CapSet
    ensures { result ≡ with_plain default set named }
{
    if set == default {
        named
    } else {
        set.union(named)
    }
}

// Returns the set after an inverted line.
fn with_inverted(default: CapSet, set: CapSet, words: &[Text]) -> CapSet
    ensures { result ≡ with_inverted default set words.now }
{
    if words.is_empty() {
        return CapSet::full();
    }
    let base = if set == default { CapSet::full() } else { set };
    base.minus(named_caps(words))
}

// Returns the set after the next value.
fn with_listed(default: CapSet, set: CapSet, one: &Listed) -> CapSet
    ensures { result ≡ with_listed default set one.now }
{
    let words = one.line.words.list();
    if one.is_reset() {
        CapSet::empty()
    } else if one.line.is_inverted {
        with_inverted(default, set, words)
    } else {
        with_plain(default, set, named_caps(words))
    }
}

// Returns the set that these lines make from the default.
fn caps_by(default: CapSet, lines: &[Listed]) -> CapSet
    ensures { result ≡ caps_by default lines.now }
{
    let mut set = default;
    for one in lines {
        set = with_listed(default, set, one);
    }
    set
}

// Returns the set that these lines make, by the rules of this version of systemd.
fn caps_read(systemd: Option<Version>, default: &Option<CapSet>, lines: &[Listed]) -> CapSet
    ensures { result ≡ caps_read systemd default.now lines.now }
{
    if systemd.is_some() {
        counted(&summed(default, lines))
    } else {
        caps_by(counted(default), lines)
    }
}

// Notes the words of all lines that do not name a capability.
fn note_names(notes: &mut Vec<FileNote>, lines: &[Listed]) -> Result<(), AllocError>
    ensures { OnOk result (notes.new.items ≡ notes.old.items ++ flat_map names_notes lines.now) }
{
    for one in lines {
        note_words(notes, &one.value, one.line.words.list())?;
    }
    Ok(())
}

/// Returns the set that the files of a unit give to a key such as CapabilityBoundingSet=. By default the key is unset or
/// has this set. Notes name values that cannot be expanded, then values that cannot be split, and then unknown names.
#[tactic(auto, unfolding(crate::specs::CapLists::unit_caps, crate::specs::CapLists::unit_caps_notes))]
pub fn cap_set_of_key(
    alloc: Global,
    unit: &Resolved,
    key: &str,
    default: Option<CapSet>,
) -> Result<Said<CapSet>, AllocError>
    ensures means { IfOk result (λ said. said.what ≡ unit_caps unit.now key.now default) }
    ensures noted { IfOk result (λ said. said.notes.items ≡ unit_caps_notes unit.now key.now) }
{
    let Said {
        what: lines,
        mut notes,
    } = lines_of_key(alloc, unit, key)?;
    note_names(&mut notes, lines.as_slice())?;
    Ok(Said {
        what: caps_read(unit.systemd, &default, lines.as_slice()),
        notes,
    })
}
