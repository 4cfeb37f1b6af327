//! The values of an argument: cases of one test each, of all of the low 32 bits of one argument.
ghost use Rattle.std.specs.Prelude.{◌≡◌, ℕ, ◌==◌, ◌<◌, ◌≤◌, [], length, map, find, option_copied, IfOk, IfSome, None};
ghost use Rattle.std.specs.List.{list_all};
ghost use Rattle.std.specs.List.Sorted.{IsStrictlyIncreasing};
ghost use Rattle.seccomp_compile.specs.Decisions.{decision_of, ends};
ghost use Rattle.seccomp_compile.specs.Rules.{values_onto, value_in, value_wanted, first_arg, is_value_test, is_value_of, AreValuesOf, DecidesValues, HaveSameMembers};

use crate::offsets::WHOLE_WORD;
use crate::runs::{add_number, close};
use crate::tree::{Comparison, Tree};
use call_rules::{Action, Case, Test};
use std::alloc::{AllocError, Global};

/// The most values of an argument that are compared one after the other.
const MOST_IN_TURN: usize = 4;

fn is_whole(test: Test, arg: u8) -> bool
    ensures { result ≡ is_value_test arg test }
{
    test.arg == arg && test.mask == WHOLE_WORD
}

// Returns whether the case is one test, of all of the low 32 bits of this argument.
fn is_value(case: &Case, arg: u8) -> bool
    ensures { result ≡ is_value_of arg case.now }
{
    match case.tests.list() {
        [test] => is_whole(*test, arg),
        _ => false,
    }
}

fn are_values(cases: &[Case], arg: u8) -> bool
    ensures { result ≡ list_all (is_value_of arg) cases.now }
{
    cases.iter().all(|case| is_value(case, arg))
}

fn arg_of(test: Test) -> u8
    ensures is { result ≡ test.arg }
    ensures there { result ≤ 5 }
{
    test.arg
}

// The argument of the first test.
fn arg_of_first(cases: &[Case]) -> Option<u8>
    ensures is { result ≡ first_arg cases.now }
    ensures there { IfSome result (λ arg. arg ≤ 5) }
{
    let (case, _) = cases.split_first()?;
    let (test, _) = case.tests.list().split_first()?;
    Some(arg_of(*test))
}

/// Returns the argument that every case compares with one value, if there is such an argument.
pub fn value_arg(cases: &[Case]) -> Option<u8>
    ensures values { IfSome result (λ arg. (arg ≤ 5) × (0 < length cases.now) × AreValuesOf arg cases.now) }
    ensures others { result ≡ None → (arg : ℕ) → AreValuesOf arg cases.now → cases.now ≡ [] }
{
    arg_of_first(cases).filter(|arg| are_values(cases, *arg))
}

// The value that the first test of the case compares.
fn value_of(case: &Case) -> u32
    ensures { result ≡ value_in case.now }
{
    case.tests.list().first().map_or(0, |test| test.value)
}

fn collect_values(alloc: Global, cases: &[Case]) -> Result<Vec<u32>, AllocError>
    ensures { IfOk result (λ values. values.items ≡ map value_in cases.now) }
{
    let mut values = Vec::new(alloc);
    for case in cases {
        values.push(value_of(case))?;
    }
    Ok(values)
}

// The values, each once, ascending.
fn values_of(alloc: Global, cases: &[Case]) -> Result<Vec<u32>, AllocError>
    ensures increasing { IfOk result (λ values. IsStrictlyIncreasing values.items) }
    ensures members { IfOk result (λ values. HaveSameMembers values.items (map value_in cases.now)) }
    ensures few { IfOk result (λ values. length values.items ≤ length cases.now) }
{
    let mut values = collect_values(alloc, cases)?;
    values.sort_unstable();
    values.dedup();
    Ok(values)
}

// The first case with the value.
fn case_with(cases: &[Case], value: u32) -> Option<&Case>
    ensures { option_copied result ≡ find (λ case. value_in case == value) cases.now }
{
    cases.iter().find(|case| value_of(case) == value)
}

fn action_of_value(cases: &[Case], value: u32, rest: Action) -> Action
    ensures { result ≡ value_wanted cases.now rest value }
{
    case_with(cases, value).map_or(rest, |case| case.action)
}

// The values in turn.
fn values_in_turn(alloc: Global, cases: &[Case], rest: Action) -> Result<Tree, AllocError>
    ensures { IfOk result (λ tree. decision_of tree ≡ values_onto cases.now (ends rest)) }
{
    let mut tree = Tree::End(rest);
    let mut left = cases;
    while let Some((case, others)) = left.split_last() {
        tree = Tree::ends_where(alloc, Comparison::Equal, value_of(case), case.action, tree)?;
        left = others;
    }
    Ok(tree)
}

// The values by a tree of comparisons.
fn values_by_tree(alloc: Global, cases: &[Case], rest: Action) -> Result<Tree, AllocError>
    requires { 5 ≤ length cases.now }
    ensures { IfOk result (λ tree. DecidesValues cases.now rest (decision_of tree)) }
{
    let values = values_of(alloc, cases)?;
    let mut runs = Vec::new(alloc);
    let mut left = values.as_slice();
    while let Some((value, others)) = left.split_last() {
        let action = action_of_value(cases, *value, rest);
        add_number(alloc, &mut runs, *value, Tree::End(action), rest)?;
        left = others;
    }
    close(alloc, runs, rest)
}

/// Returns a tree that finds the value of a word: the action of the first case with the value, or the rest if no case
/// has it.
pub fn values_tree(alloc: Global, cases: &[Case], rest: Action) -> Result<Tree, AllocError>
    ensures decides_the_values { IfOk result (λ tree. DecidesValues cases.now rest (decision_of tree)) }
{
    if cases.len() <= MOST_IN_TURN {
        return values_in_turn(alloc, cases, rest);
    }
    values_by_tree(alloc, cases, rest)
}
