//! Makes the rules of SystemCallFilter= and SystemCallErrorNumber=.
ghost use Rattle.std.specs.Prelude.{◌≡◌, ◌++◌, map, is_some, IfOk, IfSome, OnOk};
ghost use Rattle.std.specs.List.{list_any};
ghost use Rattle.std.specs.Option.{option_copied};
ghost use Rattle.filter_settings.specs.filter_rules.Calls.{last_mention, listed_by, unlisted_action, hidden_action, is_unknown, rest_of, list_action, rest_action, allows_call, lists_a_call, denies_no_call};
ghost use Rattle.filter_settings.specs.filter_rules.CallsChoice.{listed_choice, list_choice, calls_choice};
ghost use Rattle.filter_settings.specs.filter_rules.Marks.{action_of, AreMarksOf};
ghost use Rattle.call_table.specs.Table.{every_call};
ghost use Rattle.call_rules.specs.declared.actions.Action.TheVariants.{KillProcess};

use crate::filter_rules::choice::{Choice, NOT_THERE, always};
use crate::filter_rules::covers::covers;
use crate::filter_rules::marks::{Mark, call_marks, listed_action, marks_of};
use crate::filter_rules::mentions::{CallList, Mention, Mode};
use crate::filter_rules::settings::FilterSettings;
use call_rules::Action;
use call_table::{CallLine, CallTable};
use std::alloc::{AllocError, Global};

// Returns the last word that covers the name.
fn last_mention<'m>(table: &CallTable, mentions: &'m [Mention], name: &str) -> Option<&'m Mention>
    ensures { option_copied result ≡ last_mention table.now mentions.now name.now }
{
    mentions
        .iter()
        .rev()
        .find(|mention| covers(table, mention.name.as_str(), name))
}

/// Returns the word that puts the name on the list.
pub fn listed_by<'m>(table: &CallTable, mentions: &'m [Mention], name: &str) -> Option<&'m Mention>
    ensures last_word_that_adds { option_copied result ≡ listed_by table.now mentions.now name.now }
{
    last_mention(table, mentions, name).filter(|mention| mention.adds)
}

fn unlisted_action(mode: Mode, default: Action) -> Action
    ensures { result ≡ unlisted_action mode default }
{
    match mode {
        Mode::Allow => default,
        Mode::Deny => Action::Allow,
    }
}

fn hidden_action(hides: bool, mode: Mode, default: Action) -> Action
    ensures { result ≡ hidden_action hides mode default }
{
    if hides {
        NOT_THERE
    } else {
        unlisted_action(mode, default)
    }
}

/// Returns the action on every number without a name.
pub fn rest_action(calls: &Option<CallList>, default: Action) -> Action
    ensures by_the_mode { result ≡ rest_action calls.now default }
{
    match calls {
        Some(list) => hidden_action(list.hides_unknown, list.mode, default),
        None => Action::Allow,
    }
}

// Returns whether the table has a group `@known` without calls of this name.
fn is_unknown(table: &CallTable, name: &str) -> bool
    ensures { result ≡ is_unknown table.now name.now }
{
    table.members("known").is_some() && !covers(table, "@known", name)
}

// Returns the action on calls of this name that are not on the list.
fn rest_of(table: &CallTable, default: Action, name: &str, list: &CallList) -> Action
    ensures { result ≡ rest_of table.now default name.now list.now }
{
    hidden_action(
        list.hides_unknown && is_unknown(table, name),
        list.mode,
        default,
    )
}

fn list_action(table: &CallTable, default: Action, name: &str, list: &CallList) -> Action
    ensures { result ≡ list_action table.now default name.now list.now }
{
    match listed_by(table, list.mentions.list(), name) {
        Some(mention) => listed_action(list.mode, default, mention),
        None => rest_of(table, default, name, list),
    }
}

/// Returns whether SystemCallFilter= lets calls of this name through. If the key is not set, it lets all calls through.
pub fn allows_call(table: &CallTable, settings: &FilterSettings, name: &str) -> bool
    ensures by_the_lists { result ≡ allows_call table.now settings.now name.now }
{
    match &settings.calls {
        Some(list) => list_action(table, settings.default_action, name, list) == Action::Allow,
        None => true,
    }
}

// Returns the action with which the name is listed, by the words from the last to the first.
fn action_by_words(
    table: &CallTable,
    list: &CallList,
    default: Action,
    name: &str,
) -> Option<Action>
    ensures { result ≡ action_of table.now default name.now list.now }
{
    let mention = listed_by(table, list.mentions.list(), name)?;
    Some(listed_action(list.mode, default, mention))
}

// Returns the action with which the name is listed, by the mark of its first call. If the table lacks the name, there is
// no mark, and the words decide.
fn action_of(
    table: &CallTable,
    list: &CallList,
    default: Action,
    marks: &[Mark],
    name: &str,
) -> Option<Action>
    requires { AreMarksOf table.now default list.now marks.now }
    ensures { result ≡ action_of table.now default name.now list.now }
{
    match table.position(name) {
        Some(place) => marks[place].unwrap_or(None),
        None => action_by_words(table, list, default, name),
    }
}

#[tactic(auto, using(crate::proofs::Marked::some_mapped))]
fn is_listed(table: &CallTable, list: &CallList, marks: &[Mark], name: &str) -> bool
    requires { AreMarksOf table.now KillProcess list.now marks.now }
    ensures { result ≡ is_some (listed_by table.now list.now.mentions name.now) }
{
    action_of(table, list, Action::KillProcess, marks, name).is_some()
}

fn some_listed(table: &CallTable, list: &CallList, marks: &[Mark], calls: &[CallLine]) -> bool
    requires { AreMarksOf table.now KillProcess list.now marks.now }
    ensures { result ≡ list_any (λ call. is_some (listed_by table.now list.now.mentions call.name)) calls.now }
{
    for call in calls {
        if is_listed(table, list, marks, call.name.as_str()) {
            return true;
        }
    }
    false
}

// Returns whether some call of the table is on the list.
#[tactic(auto, using(crate::proofs::Marked::any_all))]
fn lists_a_call(alloc: Global, table: &CallTable, list: &CallList) -> Result<bool, AllocError>
    ensures { IfOk result (λ some. some ≡ lists_a_call table.now list.now.mentions) }
{
    let marks = marks_of(alloc, table, list, Action::KillProcess)?;
    let native = some_listed(table, list, marks.as_slice(), table.calls());
    let second = some_listed(table, list, marks.as_slice(), table.calls_in(1));
    Ok(native || second)
}

/// Returns whether the list denies and no call of the table is on it.
pub fn denies_no_call(alloc: Global, table: &CallTable, list: &CallList) -> Result<bool, AllocError>
    ensures denies_nothing { IfOk result (λ idle. idle ≡ denies_no_call table.now list.now) }
{
    if list.mode == Mode::Allow {
        return Ok(false);
    }
    Ok(!lists_a_call(alloc, table, list)?)
}

// Returns the action on calls of this name.
fn action_by_marks(
    table: &CallTable,
    default: Action,
    marks: &[Mark],
    name: &str,
    list: &CallList,
) -> Action
    requires { AreMarksOf table.now default list.now marks.now }
    ensures { result ≡ list_action table.now default name.now list.now }
{
    match action_of(table, list, default, marks, name) {
        Some(action) => action,
        None => rest_of(table, default, name, list),
    }
}

fn allows(table: &CallTable, settings: &FilterSettings, marks: &[Mark], name: &str) -> bool
    requires { IfSome settings.now.calls (λ list. AreMarksOf table.now settings.now.default_action list marks.now) }
    ensures { result ≡ allows_call table.now settings.now name.now }
{
    match &settings.calls {
        Some(list) => {
            action_by_marks(table, settings.default_action, marks, name, list) == Action::Allow
        }
        None => true,
    }
}

// Adds for each of these calls whether SystemCallFilter= lets it through.
fn push_allowed(
    table: &CallTable,
    settings: &FilterSettings,
    marks: &[Mark],
    calls: &[CallLine],
    allowed: &mut Vec<bool>,
) -> Result<(), AllocError>
    requires { IfSome settings.now.calls (λ list. AreMarksOf table.now settings.now.default_action list marks.now) }
    ensures { OnOk result (allowed.new.items ≡ allowed.old.items ++ map (λ call. allows_call table.now settings.now call.name) calls.now) }
{
    for call in calls {
        allowed.push(allows(table, settings, marks, call.name.as_str()))?;
    }
    Ok(())
}

/// Returns for each call of the table, in the order of their positions, whether SystemCallFilter= lets it through.
#[tactic(auto, using(crate::proofs::Marked::map_all))]
pub fn allowed_calls(
    alloc: Global,
    table: &CallTable,
    settings: &FilterSettings,
) -> Result<Vec<bool>, AllocError>
    ensures each_call { IfOk result (λ allowed. allowed.items ≡ map (λ call. allows_call table.now settings.now call.name) (every_call table.now)) }
{
    let marks = call_marks(alloc, table, &settings.calls, settings.default_action)?;
    let mut allowed = Vec::new(alloc);
    push_allowed(
        table,
        settings,
        marks.as_slice(),
        table.calls(),
        &mut allowed,
    )?;
    push_allowed(
        table,
        settings,
        marks.as_slice(),
        table.calls_in(1),
        &mut allowed,
    )?;
    Ok(allowed)
}

// Returns a rule if the call is listed, and none for any other call.
fn listed_choice(
    alloc: Global,
    table: &CallTable,
    default: Action,
    marks: &[Mark],
    name: &str,
    list: &CallList,
) -> Option<Choice>
    requires { AreMarksOf table.now default list.now marks.now }
    ensures { result ≡ listed_choice table.now default name.now list.now }
{
    match action_of(table, list, default, marks, name) {
        Some(action) => Some(always(alloc, action)),
        None => None,
    }
}

// Returns what the list does to a call of this name. A list that hides unknown calls has a rule for each name.
fn list_choice(
    alloc: Global,
    table: &CallTable,
    default: Action,
    marks: &[Mark],
    name: &str,
    list: &CallList,
) -> Option<Choice>
    requires { AreMarksOf table.now default list.now marks.now }
    ensures { result ≡ list_choice table.now default name.now list.now }
{
    if !list.hides_unknown {
        return listed_choice(alloc, table, default, marks, name, list);
    }
    Some(always(alloc, action_by_marks(table, default, marks, name, list)))
}

/// Returns what the rules do to calls of this name, if there is a rule.
pub fn calls_choice(
    alloc: Global,
    table: &CallTable,
    calls: &Option<CallList>,
    default: Action,
    marks: &[Mark],
    name: &str,
) -> Option<Choice>
    requires marks { IfSome calls.now (λ list. AreMarksOf table.now default list marks.now) }
    ensures by_the_list { result ≡ calls_choice table.now calls.now default name.now }
{
    match calls {
        Some(list) => list_choice(alloc, table, default, marks, name, list),
        None => None,
    }
}
