//! The action of a rule set on a call, decided from the rules themselves.
//!
//! No memory is taken.
ghost use Rattle.std.specs.Prelude.{◌≡◌, ◌==◌, find, option_copied};
ghost use Rattle.call_rules.specs.Action.{test_holds, case_holds, first_action, is_wide, call_action, case_action};

use crate::actions::Action;
use crate::rules::{CallRule, Case, RuleSet, Test, Wide};
use bpf_code::CallData;

fn holds(test: Test, input: &CallData) -> bool
    ensures { result ≡ test_holds input.now test }
{
    (input.args[test.arg as usize] & 0xffff_ffff) as u32 & test.mask == test.value
}

fn passes(case: &Case, input: &CallData) -> bool
    ensures { result ≡ case_holds input.now case.now }
{
    case.tests.list().iter().all(|test| holds(*test, input))
}

fn first_passing<'a>(cases: &'a [Case], input: &CallData) -> Option<&'a Case>
    ensures { option_copied result ≡ find (case_holds input.now) cases.now }
{
    cases.iter().find(|case| passes(case, input))
}

fn rule_of(calls: &[CallRule], number: u32) -> Option<&CallRule>
    ensures { option_copied result ≡ find (λ call. call.number == number) calls.now }
{
    calls.iter().find(|call| call.number == number)
}

fn first_action(call: &CallRule, input: &CallData) -> Action
    ensures { result ≡ first_action input.now call.now }
{
    match first_passing(call.cases.list(), input) {
        Some(case) => case.action,
        None => call.rest,
    }
}

fn is_wide(wide: Wide, input: &CallData) -> bool
    ensures { result ≡ is_wide input.now wide.arg }
{
    input.args[wide.arg as usize] >> 32 != 0
}

fn action_of(call: &CallRule, input: &CallData) -> Action
    ensures { result ≡ call_action input.now call.now }
{
    match call.wide {
        Some(wide) if is_wide(wide, input) => wide.action,
        _ => first_action(call, input),
    }
}

/// Returns the action of the rules on a call. For another architecture than theirs that is the action for it. Else
/// the call's rule decides: the action for a wide argument, if the rule has one and the argument is wide, else the
/// first case whose tests all hold, else the rest of the rule. A number without a rule gets the rest of the set.
pub fn action(rules: &RuleSet, input: &CallData) -> Action
    ensures decides_by_case { result ≡ case_action rules.now input.now }
{
    if input.arch != rules.arch {
        return rules.other;
    }
    match rule_of(rules.calls.list(), input.nr) {
        Some(call) => action_of(call, input),
        None => rules.rest,
    }
}
