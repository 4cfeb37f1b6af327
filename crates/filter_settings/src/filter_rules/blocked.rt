//! Refuses calls whatever their arguments are.
ghost use Rattle.std.specs.Prelude.{◌≡◌, map};
ghost use Rattle.std.specs.List.{list_any};
ghost use Rattle.filter_settings.specs.filter_rules.Covers.{covers};
ghost use Rattle.filter_settings.specs.filter_rules.Blocked.{is_blocked};
ghost use Rattle.filter_settings.specs.filter_rules.BlockedChoice.{blocked_choice};

use crate::filter_rules::choice::{Choice, NOT_PERMITTED, always};
use crate::filter_rules::covers::covers;
use call_table::CallTable;
use std::alloc::Global;

fn some_covers(table: &CallTable, words: &[&str], name: &str) -> bool
    ensures { result ≡ list_any (λ word. covers table.now word.now name.now) words.now }
{
    words.iter().any(|word| covers(table, *word, name))
}

fn is_blocked(table: &CallTable, words: &[&str], name: &str) -> bool
    ensures { result ≡ is_blocked table.now (map (λ word. word.now) words.now) name.now }
{
    some_covers(table, words, name)
}

/// Returns what the rules do to calls of this name, if one of the words covers the name.
pub fn blocked_choice(
    alloc: Global,
    table: &CallTable,
    words: &[&str],
    name: &str,
) -> Option<Choice>
    ensures by_the_words { result ≡ blocked_choice table.now (map (λ word. word.now) words.now) name.now }
{
    is_blocked(table, words, name).then_some(always(alloc, NOT_PERMITTED))
}
