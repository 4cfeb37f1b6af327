//! Marks the calls of a table with what the words of SystemCallFilter= say of them (systemd.exec(5)).
//!
//! The words are read once, in their order. Each word marks the calls that it covers, so the last word decides. A call is
//! marked at the first position of its name. With the marks, each name costs one lookup. Without them, each name would
//! cost a search through all words.
ghost use Rattle.std.specs.Prelude.{◌≡◌, ◌==◌, ℕ, None, false, length, slice_index_or, IfOk, IfSome};
ghost use Rattle.std.specs.List.{list_any};
ghost use Rattle.std.specs.Option.{option_map_or};
ghost use Rattle.call_table.specs.Lookups.{group_named};
ghost use Rattle.call_table.specs.Members.{has_member, is_first};
ghost use Rattle.call_table.specs.Table.{every_call};
ghost use Rattle.filter_settings.specs.filter_rules.Calls.{listed_action};
ghost use Rattle.filter_settings.specs.filter_rules.Marks.{said, AreMarks, AreMarksOf, SaidOf, SaidBy};

use crate::filter_rules::mentions::{CallList, Mention, Mode};
use call_rules::Action;
use call_table::{CallTable, behind_at};
use std::alloc::{AllocError, Global};

/// The statement of the last word that covers a call: the action with which it lists the call, or `Some(None)` if it takes
/// the call off the list. It is `None` if no word covers the call.
pub type Mark = Option<Option<Action>>;

/// Returns the action with which this word lists its calls.
pub fn listed_action(mode: Mode, default: Action, mention: &Mention) -> Action
    ensures by_the_mode { result ≡ listed_action mode default mention.now }
{
    match mode {
        Mode::Allow => mention.action.unwrap_or(Action::Allow),
        Mode::Deny => mention.action.unwrap_or(default),
    }
}

fn said(mode: Mode, default: Action, mention: &Mention) -> Option<Action>
    ensures { result ≡ said mode default mention.now }
{
    if mention.adds {
        Some(listed_action(mode, default, mention))
    } else {
        None
    }
}

// Marks a position, if there is a call at it.
fn mark_place(marks: &mut [Mark], place: usize, what: Option<Action>)
    ensures { SaidOf (λ at. place == at) what marks.old marks.new }
{
    if place < marks.len() {
        marks[place] = Some(what);
    }
}

// Marks these positions.
fn mark_all(marks: &mut [Mark], places: &[usize], what: Option<Action>)
    ensures { SaidOf (λ at. list_any (λ place. place == at) places.now) what marks.old marks.new }
{
    for place in places {
        mark_place(marks, *place, what);
    }
}

// Marks the members of the group of this name.
fn mark_group(table: &CallTable, name: &str, what: Option<Action>, marks: &mut [Mark])
    ensures { SaidOf (λ at. option_map_or (has_member at) (group_named name.now table.now.groups) false) what marks.old marks.new }
{
    match table.members(name) {
        Some(members) => mark_all(marks, members, what),
        None => {}
    }
}

// Marks the first call of this name.
fn mark_name(table: &CallTable, name: &str, what: Option<Action>, marks: &mut [Mark])
    ensures { SaidOf (is_first (every_call table.now) name.now) what marks.old marks.new }
{
    match table.position(name) {
        Some(place) => mark_place(marks, place, what),
        None => {}
    }
}

// Marks the calls that a word covers.
fn mark_word(table: &CallTable, word: &str, what: Option<Action>, marks: &mut [Mark])
    requires { length marks.old ≡ length (every_call table.now) }
    ensures { SaidBy table.now word.now what marks.old marks.new }
{
    match behind_at(word) {
        Some(name) => mark_group(table, name, what, marks),
        None => mark_name(table, word, what, marks),
    }
}

// Marks the calls that these words cover. No call is marked before.
fn mark_words(
    table: &CallTable,
    mode: Mode,
    default: Action,
    mentions: &[Mention],
    marks: &mut [Mark],
)
    requires as_many { length marks.old ≡ length (every_call table.now) }
    requires unmarked { (at : ℕ) → slice_index_or marks.old at None ≡ None }
    ensures { AreMarks table.now (said mode default) mentions.now marks.new }
{
    for mention in mentions {
        let what = said(mode, default, mention);
        mark_word(table, mention.name.as_str(), what, marks);
    }
}

/// Marks the calls of a table by a list.
#[tactic(auto, using(crate::proofs::Marked::count_all, crate::proofs::Marked::none_marked))]
pub fn marks_of(
    alloc: Global,
    table: &CallTable,
    list: &CallList,
    default: Action,
) -> Result<Vec<Mark>, AllocError>
    ensures by_the_words { IfOk result (λ marks. AreMarksOf table.now default list.now marks.items) }
{
    let mut marks = vec![in alloc; None; table.calls().len() + table.calls_in(1).len()]?;
    mark_words(table, list.mode, default, list.mentions.list(), &mut marks);
    Ok(marks)
}

/// Marks the calls of a table by SystemCallFilter=. If the key is not set, there are no marks.
pub fn call_marks(
    alloc: Global,
    table: &CallTable,
    calls: &Option<CallList>,
    default: Action,
) -> Result<Vec<Mark>, AllocError>
    ensures by_the_list { IfOk result (λ marks. IfSome calls.now (λ list. AreMarksOf table.now default list marks.items)) }
{
    match calls {
        Some(list) => marks_of(alloc, table, list, default),
        None => Ok(Vec::new(alloc)),
    }
}
