//! Chooses the call that is made for a kind, with its words: of those that the filters let through, the first in the
//! order of names.

ghost use Rattle.std.specs.Prelude.{◌≡◌, true, find, option_copied, option_map, IfOk};
ghost use Rattle.ceilings.specs.call_table.Lookups.{named};
ghost use Rattle.ceilings.specs.call_table.Table.{calls_in};
ghost use Rattle.open_calls.specs.chosen_calls.First.{args_of, first_line, lets_name, line_of, own_rule, line_in};
ghost use Rattle.ceilings.specs.kernel_laws.Launched.{launch_of, lets};
ghost use Rattle.ceilings.specs.kernel_ways.Taking.{id_payload, id_words};
ghost use Rattle.open_calls.specs.Firsts.{call_as, first_of};

use crate::names::names_of;
use crate::service::Made;
use ceilings::{CallLine, CallRule, chosen_words, lets_line, passing_line, rule_of};
use questions::{Call, CallKind, IdList, Payload, Rule, World};
use std::alloc::Global;

// The line of this ABI with this name.
fn line_named<'a>(world: &'a World<'_>, abi: u8, name: &str) -> Option<&'a CallLine>
    ensures { option_copied result ≡ named name.now (calls_in (launch_of world.now).calls abi) }
{
    let lines = world.call_table().calls_in(abi);
    lines.iter().find(|line| name == line.name.as_str())
}

// Returns whether the ABI has a call of the name that asks for the kind, and the filters let it through.
fn lets_name(world: &World<'_>, kind: CallKind, abi: u8, name: &str) -> bool
    ensures { result ≡ lets_name (launch_of world.now) kind abi name.now }
{
    match line_named(world, abi, name) {
        None => false,
        Some(line) => lets_line(world, kind, line),
    }
}

// Returns the first of these names that the filters let through for the kind.
fn first_name(
    world: &World<'_>,
    kind: CallKind,
    abi: u8,
    names: &'static [&'static str],
) -> Option<&'static str>
    ensures { option_copied result ≡ option_map (λ name. name.now) (find (λ name. lets_name (launch_of world.now) kind abi name.now) names.now) }
{
    names
        .iter()
        .find(|name| lets_name(world, kind, abi, name))
        .copied()
}

// The line of that name.
fn line_in<'a>(world: &'a World<'_>, kind: CallKind, abi: u8) -> Option<&'a CallLine>
    ensures { option_copied result ≡ line_in (launch_of world.now) kind abi }
{
    let name = first_name(world, kind, abi, names_of(kind))?;
    line_named(world, abi, name)
}

// Returns the line of the call that is made, if there is one: by the native ABI, else by the other, else the first of
// the table.
fn first_line<'a>(world: &'a World<'_>, kind: CallKind) -> Option<&'a CallLine>
    ensures { option_copied result ≡ first_line (launch_of world.now) kind }
{
    if let Some(line) = line_in(world, kind, 0) {
        return Some(line);
    }
    match line_in(world, kind, 1) {
        Some(line) => Some(line),
        None => passing_line(world, kind),
    }
}

// The line of the call that is made for a kind of which some call passes.
#[tactic(auto, unfolding(crate::specs::chosen_calls::First::line_of))]
fn line_of<'a>(world: &'a World<'_>, kind: CallKind) -> &'a CallLine
    requires some_passes { lets (launch_of world.now) kind ≡ true }
    ensures { result.now ≡ line_of (launch_of world.now) kind }
{
    match first_line(world, kind) {
        Some(line) => line,
        None => unreachable!(),
    }
}

// The rule of the call of a line.
fn own_rule(line: &CallLine) -> Rule
    ensures { result ≡ own_rule line.now }
{
    rule_of(line).unwrap_or(Rule::Plain(None))
}

// The words with which the call of a line asks for the kind.
fn args_of(world: &World<'_>, kind: CallKind, line: &CallLine) -> [u64; 6]
    ensures { result ≡ args_of (launch_of world.now) kind line.now }
{
    match rule_of(line) {
        Some(rule) => chosen_words(world, kind, line, rule).unwrap_or([0; 6]),
        None => [0; 6],
    }
}

/// The call of a line, by process 1.
pub(crate) fn call_of(line: &CallLine, args: [u64; 6], payload: Payload) -> Call
    ensures { result ≡ record { pid = 1; abi = line.now.abi; nr = line.now.number; args = args; payload = payload } }
{
    Call {
        pid: 1,
        abi: line.abi,
        nr: line.number,
        args,
        payload,
    }
}

/// The first call of a kind: where it is in the table, the words that ask for the kind, and its rule.
#[derive(Clone, Copy)]
pub(crate) struct FirstCall {
    // By which ABI it is made.
    pub(crate) abi: u8,
    // Its number.
    pub(crate) nr: u32,
    // Its words.
    pub(crate) args: [u64; 6],
    // Its rule.
    pub(crate) rule: Rule,
}

impl FirstCall {
    /// Returns the call by process 1, with these words and this payload.
    pub(crate) fn with(self, args: [u64; 6], payload: Payload) -> Call
        ensures { result ≡ call_as self args payload }
    {
        Call {
            pid: 1,
            abi: self.abi,
            nr: self.nr,
            args,
            payload,
        }
    }
}

/// Finds the first call of a kind. Some call of the kind must pass.
pub(crate) fn first_call(world: &World<'_>, kind: CallKind) -> FirstCall
    requires some_passes { lets (launch_of world.now) kind ≡ true }
    ensures { result ≡ first_of (launch_of world.now) kind }
{
    let line = line_of(world, kind);
    FirstCall {
        abi: line.abi,
        nr: line.number,
        args: args_of(world, kind, line),
        rule: own_rule(line),
    }
}

/// The words of a call of the rule that takes the id.
pub(crate) fn id_words(rule: Rule, id: u32) -> [u64; 6]
    ensures { result ≡ id_words rule id }
{
    let id = u64::from(id);
    match rule {
        Rule::Known(CallRule::Setresuid | CallRule::Setresgid) => [id, id, id, 0, 0, 0],
        Rule::Known(CallRule::Setreuid | CallRule::Setregid) => [id, id, 0, 0, 0, 0],
        Rule::Known(CallRule::Setgroups) => [0; 6],
        _ => [id, 0, 0, 0, 0, 0],
    }
}

/// Returns the payload of a call of the rule that takes the id.
pub(crate) fn id_payload(alloc: Global, rule: Rule, id: u32) -> Made<Payload>
    ensures { IfOk result (λ payload. payload ≡ id_payload rule id) }
{
    match rule {
        Rule::Known(CallRule::Setgroups) => {
            let mut ids = Vec::new(alloc);
            ids.push(id)?;
            Ok(Payload::Ids(IdList::new(ids)))
        }
        _ => Ok(Payload::Nothing),
    }
}
