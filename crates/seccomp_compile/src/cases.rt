//! The cases of a call in turn: a tree that tests one after the other.
ghost use Rattle.std.specs.Prelude.{◌≡◌, IfOk};
ghost use Rattle.seccomp_compile.specs.Decisions.{decision_of, ends, both, LooksInside};
ghost use Rattle.seccomp_compile.specs.Rules.{one_test, by_tests, cases_onto};

use crate::looks::{comparison_for, mask_for};
use crate::offsets::arg_offset;
use crate::tree::Tree;
use call_rules::{Action, Case, Test};
use std::alloc::{AllocError, Global};

// A test that ends with the action if it holds. The following tree does not load the same word again.
fn test_tree(alloc: Global, test: Test, action: Action, otherwise: Tree) -> Result<Tree, AllocError>
    ensures tests { IfOk result (λ tree. decision_of tree ≡ one_test test action (decision_of otherwise)) }
    ensures looks { LooksInside (decision_of otherwise) → IfOk result (λ tree. LooksInside (decision_of tree)) }
{
    let offset = arg_offset(test.arg);
    let mask = mask_for(test);
    let compared = Tree::ends_where(
        alloc,
        comparison_for(test),
        test.value,
        action,
        otherwise.past_look(offset, mask),
    )?;
    Ok(Tree::Look {
        offset,
        mask,
        next: Box::new(alloc, compared)?,
    })
}

// Two tests, which end with the action where both hold.
fn tests_tree(
    alloc: Global,
    first: Test,
    second: Test,
    action: Action,
    otherwise: Tree,
) -> Result<Tree, AllocError>
    ensures tests { IfOk result (λ tree. decision_of tree ≡ both first second action (decision_of otherwise)) }
    ensures looks { LooksInside (decision_of otherwise) → IfOk result (λ tree. LooksInside (decision_of tree)) }
{
    Ok(Tree::Both {
        first,
        second,
        action,
        otherwise: Box::new(alloc, otherwise)?,
    })
}

// A case of at most two tests. If a test fails, the following tree decides.
fn case_tree(alloc: Global, case: &Case, otherwise: Tree) -> Result<Tree, AllocError>
    ensures tests { IfOk result (λ tree. decision_of tree ≡ by_tests case.now.tests case.now.action (decision_of otherwise)) }
    ensures looks { LooksInside (decision_of otherwise) → IfOk result (λ tree. LooksInside (decision_of tree)) }
{
    match case.tests.list().split_first() {
        None => Ok(Tree::End(case.action)),
        Some((first, others)) => match others.split_first() {
            None => test_tree(alloc, *first, case.action, otherwise),
            Some((second, _)) => tests_tree(alloc, *first, *second, case.action, otherwise),
        },
    }
}

/// Makes the tree of the cases in order, and of the default if no case passes.
pub fn cases_tree(alloc: Global, cases: &[Case], rest: Action) -> Result<Tree, AllocError>
    ensures cases { IfOk result (λ tree. decision_of tree ≡ cases_onto cases.now (ends rest)) }
    ensures looks { IfOk result (λ tree. LooksInside (decision_of tree)) }
{
    let mut tree = Tree::End(rest);
    let mut left = cases;
    while let Some((case, others)) = left.split_last() {
        tree = case_tree(alloc, case, tree)?;
        left = others;
    }
    Ok(tree)
}
