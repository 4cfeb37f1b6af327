//! Makes decision trees of rules.
ghost use Rattle.std.specs.Prelude.{◌≡◌, ◌≤◌, map, IfOk};
ghost use Rattle.std.specs.List.{All};
ghost use Rattle.std.specs.List.Sorted.{IsStrictlyIncreasing};
ghost use Rattle.call_rules.specs.Sizes.{CanCompile};
ghost use Rattle.seccomp_compile.specs.Compiled.{CanCompileCall};
ghost use Rattle.seccomp_compile.specs.Decisions.{decision_of, looks, splits, ends};
ghost use Rattle.seccomp_compile.specs.Code.{whole_word};
ghost use Rattle.seccomp_compile.specs.Rules.{past_wide, DecidesCases, DecidesCall, DecidesNumbers, DecidesRules};

use crate::cases::cases_tree;
use crate::offsets::{ARCH_OFFSET, NUMBER_OFFSET, WHOLE_WORD, arg_offset, high_offset};
use crate::runs::{add_number, close};
use crate::tree::{Comparison, Tree};
use crate::values::{value_arg, values_tree};
use call_rules::{Action, CallRule, RuleSet, Wide};
use std::alloc::{AllocError, Global};

// A tree that looks at a whole word of the data.
fn look_at(alloc: Global, offset: u32, next: Tree) -> Result<Tree, AllocError>
    ensures { IfOk result (λ tree. decision_of tree ≡ looks offset whole_word (decision_of next)) }
{
    Ok(Tree::Look {
        offset,
        mask: WHOLE_WORD,
        next: Box::new(alloc, next)?,
    })
}

// A tree that ends in this action where the word is not this number.
fn only_for(alloc: Global, number: u32, other: Action, tree: Tree) -> Result<Tree, AllocError>
    ensures { IfOk result (λ whole. decision_of whole ≡ splits Comparison.Equal number (ends other) (decision_of tree)) }
{
    Ok(Tree::Split {
        comparison: Comparison::Equal,
        number,
        miss: Box::new(alloc, Tree::End(other))?,
        hit: Box::new(alloc, tree)?,
    })
}

// The cases of a call, and its rest.
fn rule_tree(alloc: Global, call: &CallRule) -> Result<Tree, AllocError>
    requires { CanCompileCall call.now }
    ensures { IfOk result (λ tree. DecidesCases call.now (decision_of tree)) }
{
    let cases = call.cases.list();
    match value_arg(cases) {
        Some(arg) => {
            let values = values_tree(alloc, cases, call.rest)?;
            look_at(alloc, arg_offset(arg), values)
        }
        None => cases_tree(alloc, cases, call.rest),
    }
}

// A tree that ends in an action of its own where an argument is wide.
fn unless_wide(alloc: Global, wide: Wide, narrow: Tree) -> Result<Tree, AllocError>
    ensures looks { IfOk result (λ tree. decision_of tree ≡ past_wide wide (decision_of narrow)) }
    ensures there { wide.arg ≤ 5 }
{
    let compared = only_for(alloc, 0, wide.action, narrow)?;
    look_at(alloc, high_offset(wide.arg), compared)
}

// The rule of a call.
fn call_tree(alloc: Global, call: &CallRule) -> Result<Tree, AllocError>
    requires { CanCompileCall call.now }
    ensures { IfOk result (λ tree. DecidesCall call.now (decision_of tree)) }
{
    let narrow = rule_tree(alloc, call)?;
    match call.wide {
        Some(wide) => unless_wide(alloc, wide, narrow),
        None => Ok(narrow),
    }
}

// The calls by their numbers.
fn numbers_tree(alloc: Global, calls: &[CallRule], rest: Action) -> Result<Tree, AllocError>
    requires increasing { IsStrictlyIncreasing (map (λ call. call.number) calls.now) }
    requires can { All CanCompileCall calls.now }
    ensures { IfOk result (λ tree. DecidesNumbers calls.now rest (decision_of tree)) }
{
    let mut runs = Vec::new(alloc);
    let mut left = calls;
    while let Some((call, others)) = left.split_last() {
        let tree = call_tree(alloc, call)?;
        add_number(alloc, &mut runs, call.number, tree, rest)?;
        left = others;
    }
    close(alloc, runs, rest)
}

/// Returns the rules as a tree, which looks at the architecture first and then at the number.
pub fn rules_tree(alloc: Global, rules: &RuleSet) -> Result<Tree, AllocError>
    requires { CanCompile rules.now }
    ensures decides_the_rules { IfOk result (λ tree. DecidesRules rules.now (decision_of tree)) }
{
    let numbers = numbers_tree(alloc, rules.calls.list(), rules.rest)?;
    let by_number = look_at(alloc, NUMBER_OFFSET, numbers)?;
    let compared = only_for(alloc, rules.arch, rules.other, by_number)?;
    look_at(alloc, ARCH_OFFSET, compared)
}
