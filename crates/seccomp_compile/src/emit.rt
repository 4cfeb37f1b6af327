//! Makes instructions of decision trees.
//!
//! A program is made from its end: new instructions are put in front, and lead to those that are there already. A
//! place is counted from the end, so that it stays the same. An ending that is near is used again.
ghost use Rattle.std.specs.Prelude.{◌≡◌, ◌+◌, ◌-◌, ◌<◌, ◌≤◌, ◌++◌, length, OnOk, IfOk, MatchOption};
ghost use Rattle.std.specs.List.{All};
ghost use Rattle.call_rules.specs.bpf_code.Reading.{Fits};
ghost use Rattle.seccomp_compile.specs.Code.{look_code};
ghost use Rattle.seccomp_compile.specs.Form.{AreOfForm};
ghost use Rattle.seccomp_compile.specs.Decisions.{decision_of, ends, LooksInside};
ghost use Rattle.seccomp_compile.specs.Lengths.{most_of};
ghost use Rattle.seccomp_compile.specs.Placed.{IsSound, IsInReach, Placed, Reached, StandsAt, NoneStands, with_comparison, with_test};

use crate::instructions::{and_mask, answer, is_answer, jump, jump_if, load_word};
use crate::looks::{comparison_for, mask_for};
use crate::offsets::{WHOLE_WORD, arg_offset};
use crate::tree::{Comparison, Tree};
use call_rules::{Action, Insn, Test};
use std::alloc::AllocError;
use std::collections::VecDeque;

/// The most instructions in front of an ending that is used again: so few that a comparison in front of another tree
/// of some length still leads to it.
const NEAR: usize = 200;

/// The most instructions in front of a place that a comparison leads to. Its offsets have eight bits, and one
/// instruction may be added in between.
const FARTHEST_SKIP: usize = 254;

// Returns the number of instructions in front of an ending with the action that is near.
fn end_near(code: &VecDeque<Insn>, action: Action) -> Option<usize>
    ensures { MatchOption result (NoneStands action code.now.items) (StandsAt action code.now.items) }
{
    let mut skip = 0;
    while skip < code.len() && skip < NEAR {
        if is_answer(code[skip], action) {
            return Some(skip);
        }
        skip += 1;
    }
    None
}

// The place of an ending with the action.
fn place_end(code: &mut VecDeque<Insn>, action: Action) -> Result<usize, AllocError>
    requires sound { IsSound code.old.items }
    requires fit { All Fits code.old.items }
    requires formed { AreOfForm code.old.items }
    ensures placed { IfOk result (Placed (ends action) code.old.items code.new.items) }
    ensures fit { OnOk result (All Fits code.new.items) }
    ensures formed { OnOk result (AreOfForm code.new.items) }
{
    match end_near(code, action) {
        Some(skip) => Ok(code.len() - skip),
        None => {
            code.push_front(answer(action))?;
            Ok(code.len())
        }
    }
}

// Returns the place if at most `limit` instructions precede it. Otherwise adds a jump to it, and returns the jump's place.
fn within(code: &mut VecDeque<Insn>, place: usize, limit: usize) -> Result<usize, AllocError>
    requires sound { IsSound code.old.items }
    requires fit { All Fits code.old.items }
    requires formed { AreOfForm code.old.items }
    requires some { 0 < place }
    requires inside { place ≤ length code.old.items }
    requires short { length code.old.items ≤ 4096 }
    ensures reached { IfOk result (λ reached. Reached code.old.items code.new.items place reached limit) }
    ensures fit { OnOk result (All Fits code.new.items) }
    ensures formed { OnOk result (AreOfForm code.new.items) }
{
    let skip = code.len() - place;
    if skip <= limit {
        return Ok(place);
    }
    code.push_front(jump(skip as u32))?;
    Ok(code.len())
}

// A comparison that leads to the first place where it fails, and to the second one where it holds.
fn compare(
    code: &mut VecDeque<Insn>,
    comparison: Comparison,
    number: u32,
    miss: usize,
    hit: usize,
) -> Result<(), AllocError>
    requires fit { All Fits code.old.items }
    requires formed { AreOfForm code.old.items }
    requires miss { IsInReach miss code.old.items }
    requires hit { IsInReach hit code.old.items }
    ensures adds { OnOk result (code.new.items ≡ with_comparison comparison number miss hit code.old.items) }
    ensures fit { OnOk result (All Fits code.new.items) }
    ensures formed { OnOk result (AreOfForm code.new.items) }
{
    let insn = jump_if(
        comparison,
        number,
        (code.len() - hit) as u8,
        (code.len() - miss) as u8,
    );
    code.push_front(insn)?;
    Ok(())
}

// The word at an offset and a mask.
fn look(code: &mut VecDeque<Insn>, offset: u32, mask: u32) -> Result<(), AllocError>
    requires fit { All Fits code.old.items }
    requires formed { AreOfForm code.old.items }
    ensures adds { OnOk result (code.new.items ≡ look_code offset mask ++ code.old.items) }
    ensures fit { OnOk result (All Fits code.new.items) }
    ensures formed { OnOk result (AreOfForm code.new.items) }
{
    if mask != WHOLE_WORD {
        code.push_front(and_mask(mask))?;
    }
    code.push_front(load_word(offset))?;
    Ok(())
}

// A test that leads to the first place where it fails, and to the second one where it holds.
fn test(code: &mut VecDeque<Insn>, test: Test, miss: usize, hit: usize) -> Result<(), AllocError>
    requires fit { All Fits code.old.items }
    requires formed { AreOfForm code.old.items }
    requires miss { IsInReach miss code.old.items }
    requires hit { IsInReach hit code.old.items }
    ensures adds { OnOk result (code.new.items ≡ with_test test miss hit code.old.items) }
    ensures fit { OnOk result (All Fits code.new.items) }
    ensures formed { OnOk result (AreOfForm code.new.items) }
{
    compare(code, comparison_for(test), test.value, miss, hit)?;
    look(code, arg_offset(test.arg), mask_for(test))?;
    Ok(())
}

/// Adds the tree's code unless it is there, and returns its place.
pub fn place(code: &mut VecDeque<Insn>, tree: &Tree) -> Result<usize, AllocError>
    requires sound { IsSound code.old.items }
    requires fit { All Fits code.old.items }
    requires formed { AreOfForm code.old.items }
    requires looks { LooksInside (decision_of tree.now) }
    requires short { length code.old.items + most_of (decision_of tree.now) ≤ 4096 }
    ensures placed { IfOk result (Placed (decision_of tree.now) code.old.items code.new.items) }
    ensures fit { OnOk result (All Fits code.new.items) }
    ensures formed { OnOk result (AreOfForm code.new.items) }
{
    match tree {
        Tree::End(action) => place_end(code, *action),
        Tree::Look { offset, mask, next } => {
            let next_at = place(code, next)?;
            within(code, next_at, 0)?;
            look(code, *offset, *mask)?;
            Ok(code.len())
        }
        Tree::Split {
            comparison,
            number,
            miss,
            hit,
        } => {
            if hit.is_end() {
                let miss_at = place(code, miss)?;
                let hit_at = place(code, hit)?;
                compare(code, *comparison, *number, miss_at, hit_at)?;
                return Ok(code.len());
            }
            let far_at = place(code, hit)?;
            let miss_at = place(code, miss)?;
            let hit_at = within(code, far_at, FARTHEST_SKIP)?;
            compare(code, *comparison, *number, miss_at, hit_at)?;
            Ok(code.len())
        }
        Tree::Both {
            first,
            second,
            action,
            otherwise,
        } => {
            let miss_at = place(code, otherwise)?;
            let hit_at = place_end(code, *action)?;
            test(code, *second, miss_at, hit_at)?;
            let second_at = code.len();
            test(code, *first, miss_at, second_at)?;
            Ok(code.len())
        }
    }
}
