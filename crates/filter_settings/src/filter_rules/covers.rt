//! Finds the calls that a word of a filter covers: a call by its name, or the members of a group by `@` and its name.
ghost use Rattle.std.specs.Prelude.{◌≡◌, ◌==◌, false};
ghost use Rattle.std.specs.Option.{option_map_or};
ghost use Rattle.std.specs.List.{list_any};
ghost use Rattle.call_table.specs.Lookups.{place_named};
ghost use Rattle.call_table.specs.Table.{every_call};
ghost use Rattle.filter_settings.specs.filter_rules.Covers.{covers};

use call_table::{CallTable, behind_at};

// Returns whether the first call of this name is one of the members. Members are positions among all calls of the table.
fn has_member_named(table: &CallTable, name: &str, members: &[usize]) -> bool
    ensures { result ≡ option_map_or (λ place. list_any (λ member. member == place) members.now) (place_named name.now (every_call table.now)) false }
{
    match table.position(name) {
        Some(position) => members.contains(&position),
        None => false,
    }
}

/// Returns whether the word covers the calls of this name.
#[tactic(auto, unfolding(crate::specs::filter_rules::Covers::covers))]
pub fn covers(table: &CallTable, word: &str, name: &str) -> bool
    ensures by_the_word { result ≡ covers table.now word.now name.now }
{
    match behind_at(word) {
        None => word == name,
        Some(group) => match table.members(group) {
            Some(members) => has_member_named(table, name, members),
            None => false,
        },
    }
}
