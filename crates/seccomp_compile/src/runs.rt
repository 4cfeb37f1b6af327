//! Runs of neighbouring numbers, and the balanced tree of comparisons that finds a number's run.
ghost use Rattle.std.specs.Prelude.{◌≡◌, ◌+◌, ◌^◌, ◌<◌, ◌≤◌, length, IfOk, OnOk, IsTrue};
ghost use Rattle.seccomp_compile.specs.Decisions.{decision_of, ends, splits};
ghost use Rattle.seccomp_compile.specs.declared.tree.Comparison.TheVariants.{Equal};
ghost use Rattle.seccomp_compile.specs.Runs.{run_decision, floor_of, EndAlike, Encloses, Extends, GoesAround, AddsRun, Fills, AddsNumber, JoinsLowest, Closes};

use crate::tree::{Comparison, Tree};
use call_rules::Action;
use std::alloc::{AllocError, Global};

/// A tree for the numbers from this one on, up to the run above.
#[derive(Drop)]
pub struct Run {
    pub from: u32,
    pub tree: Tree,
}

// Returns true only if the tree ends at once with the action.
fn ends_with(tree: &Tree, action: Action) -> bool
    ensures { IsTrue result → decision_of tree.now ≡ ends action }
{
    tree.ending().is_some_and(|other| other == action)
}

// Returns the number at which the runs begin, each of which follows the next one below; without a run, the number
// after all numbers.
fn floor(runs: &[Run]) -> u64
    ensures { result ≡ floor_of (2 ^ 32) runs.now }
{
    match runs.last() {
        Some(run) => u64::from(run.from),
        None => 1 << 32,
    }
}

// Returns true only if the lowest run and the one below it end at once with the same action.
fn end_alike(runs: &[Run], run: &Run) -> bool
    ensures { IsTrue result → EndAlike runs.now run.now }
{
    match (runs.last(), run.tree.ending()) {
        (Some(above), Some(action)) => ends_with(&above.tree, action),
        _ => false,
    }
}

// Returns true only if the lowest run is one number and no comparison, and the run above it ends as the one below it.
fn encloses(runs: &[Run], run: &Run) -> bool
    ensures { IsTrue result → Encloses runs.now run.now }
{
    let count = runs.len();
    if count < 2 {
        return false;
    }
    let above = &runs[count - 2];
    let middle = &runs[count - 1];
    if u64::from(above.from) != u64::from(middle.from) + 1 {
        return false;
    }
    if middle.tree.is_split() {
        return false;
    }
    match run.tree.ending() {
        Some(action) => ends_with(&above.tree, action),
        None => false,
    }
}

// The run of a number that lies alone in a run, of which the part below is given.
fn enclosed(alloc: Global, middle: Run, run: Run) -> Result<Run, AllocError>
    ensures from { IfOk result (λ joined. joined.from ≡ run.from) }
    ensures decides { IfOk result (λ joined. run_decision joined ≡ splits Equal middle.from (run_decision run) (run_decision middle)) }
{
    Ok(Run {
        from: run.from,
        tree: Tree::Split {
            comparison: Comparison::Equal,
            number: middle.from,
            miss: Box::new(alloc, run.tree)?,
            hit: Box::new(alloc, middle.tree)?,
        },
    })
}

// Returns true only if the lowest run compares one number of its own, and ends around it as the one below it.
fn extends(runs: &[Run], run: &Run) -> bool
    ensures { IsTrue result → Extends runs.now run.now }
{
    match (runs.last(), run.tree.ending()) {
        (Some(lowest), Some(action)) => goes_around(&lowest.tree, lowest.from, action),
        _ => false,
    }
}

// Returns true only if the tree compares one number from this one on, and ends around it with the action.
fn goes_around(tree: &Tree, from: u32, action: Action) -> bool
    ensures { IsTrue result → GoesAround from action (decision_of tree.now) }
{
    match tree {
        Tree::Split {
            comparison,
            number,
            miss,
            ..
        } => match comparison {
            Comparison::Equal => from <= *number && ends_with(miss, action),
            _ => false,
        },
        _ => false,
    }
}

// Adds a run below the others. If it ends as the lowest of them, the two become one run. If it encloses a number with
// the lowest two, the three become one.
fn add_run(alloc: Global, runs: &mut Vec<Run>, run: Run) -> Result<(), AllocError>
    ensures { OnOk result (AddsRun runs.old.items run runs.new.items) }
{
    if end_alike(runs, &run) {
        runs.pop();
        runs.push(run)?;
        return Ok(());
    }
    if extends(runs, &run) {
        let lowest = runs.pop().unwrap();
        runs.push(Run {
            from: run.from,
            tree: lowest.tree,
        })?;
        return Ok(());
    }
    if encloses(runs, &run) {
        let middle = runs.pop().unwrap();
        runs.pop();
        let joined = enclosed(alloc, middle, run)?;
        runs.push(joined)?;
        return Ok(());
    }
    runs.push(run)?;
    Ok(())
}

// Adds the numbers from this one on that are below the runs, as a run that ends with the rest.
fn fill(alloc: Global, runs: &mut Vec<Run>, from: u64, rest: Action) -> Result<(), AllocError>
    ensures { OnOk result (Fills runs.old.items from rest runs.new.items) }
{
    if from >= 1 << 32 {
        return Ok(());
    }
    if floor(runs) <= from {
        return Ok(());
    }
    let run = Run {
        from: from as u32,
        tree: Tree::End(rest),
    };
    add_run(alloc, runs, run)?;
    Ok(())
}

/// Adds a number below the runs, and the numbers between as a run that ends with the rest.
pub fn add_number(
    alloc: Global,
    runs: &mut Vec<Run>,
    number: u32,
    tree: Tree,
    rest: Action,
) -> Result<(), AllocError>
    ensures adds { OnOk result (AddsNumber runs.old.items number (decision_of tree) rest runs.new.items) }
    ensures there { number < 2 ^ 32 }
{
    fill(alloc, runs, u64::from(number) + 1, rest)?;
    add_run(alloc, runs, Run { from: number, tree })
}

// The lowest runs, so many, as one.
fn join(alloc: Global, runs: &mut Vec<Run>, count: usize) -> Result<Run, AllocError>
    requires some { 0 < count }
    requires there { count ≤ length runs.old.items }
    ensures joins { IfOk result (JoinsLowest runs.old.items runs.new.items count) }
{
    if count == 1 {
        return Ok(runs.pop().unwrap());
    }
    let low = join(alloc, runs, count / 2)?;
    let high = join(alloc, runs, count - count / 2)?;
    Ok(Run {
        from: low.from,
        tree: Tree::Split {
            comparison: Comparison::AtLeast,
            number: high.from,
            miss: Box::new(alloc, low.tree)?,
            hit: Box::new(alloc, high.tree)?,
        },
    })
}

/// Makes the tree of all numbers. Numbers below the runs end with the default.
pub fn close(alloc: Global, mut runs: Vec<Run>, rest: Action) -> Result<Tree, AllocError>
    ensures closes { IfOk result (λ tree. Closes runs.items rest (decision_of tree)) }
{
    fill(alloc, &mut runs, 0, rest)?;
    let count = runs.len();
    let run = join(alloc, &mut runs, count)?;
    Ok(run.tree)
}
