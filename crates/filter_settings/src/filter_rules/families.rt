//! Makes the rules of RestrictAddressFamilies=, which filters socket(2).
ghost use Rattle.std.specs.Prelude.{◌≡◌, IfOk};
ghost use Rattle.std.specs.List.{list_any};
ghost use Rattle.std.specs.Option.{option_copied};
ghost use Rattle.filter_settings.specs.filter_rules.Families.{last_family, is_listed_family, is_refused_by, permits_family, denies_no_family};
ghost use Rattle.filter_settings.specs.filter_rules.FamiliesChoice.{family_tests, family_choice, socket_choice, families_choice};

use crate::filter_rules::choice::{Choice, by_value, whole};
use crate::filter_rules::mentions::{FamilyList, FamilyMention, Mode};
use call_rules::{Action, Tests};
use call_table::{CallLine, CallTable};
use dropin_merge::Version;
use dropin_merge::linux_numbers::errnos::EAFNOSUPPORT;
use std::alloc::{AllocError, Global};

/// The address family is not supported (errno(3)).
const FAMILY_NOT_SUPPORTED: Action = Action::Errno(EAFNOSUPPORT as u16);

// Returns the last word that names the family.
fn last_family(mentions: &[FamilyMention], number: u32) -> Option<&FamilyMention>
    ensures { option_copied result ≡ last_family mentions.now number }
{
    mentions
        .iter()
        .rev()
        .find(|mention| mention.number == number)
}

fn is_listed(mentions: &[FamilyMention], number: u32) -> bool
    ensures { result ≡ is_listed_family mentions.now number }
{
    last_family(mentions, number).is_some_and(|mention| mention.adds)
}

fn some_listed(mentions: &[FamilyMention], families: &[CallLine]) -> bool
    ensures { result ≡ list_any (λ family. is_listed_family mentions.now family.number) families.now }
{
    families
        .iter()
        .any(|family| is_listed(mentions, family.number))
}

/// Returns whether the list denies and no family of the table is on it.
pub fn denies_no_family(table: &CallTable, list: &FamilyList) -> bool
    ensures denies_nothing { result ≡ denies_no_family table.now list.now }
{
    match list.mode {
        Mode::Allow => false,
        Mode::Deny => !some_listed(list.mentions.list(), table.families()),
    }
}

fn is_refused_by(mode: Mode, is_listed: bool) -> bool
    ensures { result ≡ is_refused_by mode is_listed }
{
    match mode {
        Mode::Allow => !is_listed,
        Mode::Deny => is_listed,
    }
}

/// Returns whether socket(2) may be asked for the family of this number, AF_* of socket(2).
pub fn permits_family(families: &Option<FamilyList>, number: u32) -> bool
    ensures by_the_list { result ≡ permits_family families.now number }
{
    match families {
        Some(list) => !is_refused_by(list.mode, is_listed(list.mentions.list(), number)),
        None => true,
    }
}

fn family_tests(
    alloc: Global,
    mentions: &[FamilyMention],
    families: &[CallLine],
) -> Result<Tests, AllocError>
    ensures { IfOk result (λ tests. tests ≡ family_tests mentions.now families.now) }
{
    let mut tests = Vec::new(alloc);
    for family in families {
        if is_listed(mentions, family.number) {
            tests.push(whole(0, family.number))?;
        }
    }
    Ok(Tests::new(tests))
}

fn choice_by(systemd: Option<Version>, mode: Mode, any: Tests) -> Choice
    ensures { result ≡ family_choice systemd mode any }
{
    match mode {
        Mode::Allow => by_value(systemd, 0, any, Action::Allow, FAMILY_NOT_SUPPORTED),
        Mode::Deny => by_value(systemd, 0, any, FAMILY_NOT_SUPPORTED, Action::Allow),
    }
}

fn socket_choice(
    alloc: Global,
    systemd: Option<Version>,
    table: &CallTable,
    list: &FamilyList,
) -> Result<Choice, AllocError>
    ensures { IfOk result (λ choice. choice ≡ socket_choice systemd table.now list.now) }
{
    let tests = family_tests(alloc, list.mentions.list(), table.families())?;
    Ok(choice_by(systemd, list.mode, tests))
}

/// Returns what the rules do to calls of this name if it is `socket`: a test for each family of the table on the list.
pub fn families_choice(
    alloc: Global,
    systemd: Option<Version>,
    table: &CallTable,
    families: &Option<FamilyList>,
    name: &str,
) -> Result<Option<Choice>, AllocError>
    ensures by_the_families { IfOk result (λ choice. choice ≡ families_choice systemd table.now families.now name.now) }
{
    match families {
        Some(list) if name == "socket" => Ok(Some(socket_choice(alloc, systemd, table, list)?)),
        _ => Ok(None),
    }
}
