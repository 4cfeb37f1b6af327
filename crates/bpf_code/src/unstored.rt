// Finds the first load of a scratch word that some path does not store before.
//
// Jumps only lead forward, so one pass is enough. At each place it knows the words that some path to this place leaves
// unstored, and it hands them to the places that follow.
ghost use Rattle.std.specs.Prelude.{◌≡◌, ◌+◌, ◌<◌, ◌≤◌, ◌↔◌, ℕ, length, replicate, true, None, IsTrue, IfOk, MatchOption};
ghost use Rattle.bpf_code.specs.Ops.{op_of};
ghost use Rattle.bpf_code.specs.Accepted.{AreFine, fault_of, is_scratch_load, NoUnstored, IsFirstUnstored};
ghost use Rattle.bpf_code.specs.Unstored.{Has, without_word, unstored_behind, joined, passed_on};

use crate::codes::decode;
use crate::machine::Insn;
use crate::ops::Op;
use std::alloc::{AllocError, Global};

// A set of scratch words, a bit for each.
type Words = u16;

const ALL: Words = u16::MAX;

const NONE: Words = 0;

fn has(words: Words, word: u32) -> bool
    requires { word < 16 }
    ensures { IsTrue result ↔ Has words word }
{
    (words >> word) & 1 == 1
}

fn without(words: Words, word: u32) -> Words
    requires { word < 16 }
    ensures { result ≡ without_word words word }
{
    words & !(1 << word)
}

// Adds these words to the marks of a place, if the place exists.
fn join(marks: &mut [Words], at: usize, words: Words)
    ensures { marks.new ≡ joined marks.old at words }
{
    if at < marks.len() {
        marks[at] |= words;
    }
}

// Returns whether an instruction loads one of these words.
fn loads(insn: Insn, words: Words) -> bool
    requires { (left : ℕ) × (fault_of insn left ≡ None) }
    ensures { IsTrue result ↔ ((is_scratch_load (op_of insn.code) ≡ true) × Has words insn.k) }
{
    match decode(insn.code) {
        Some(Op::LoadScratch(_)) => has(words, insn.k),
        _ => false,
    }
}

// Returns the words that are still unstored after an instruction.
fn left_unstored(insn: Insn, words: Words) -> Words
    requires { (left : ℕ) × (fault_of insn left ≡ None) }
    ensures { result ≡ unstored_behind (op_of insn.code) insn words }
{
    match decode(insn.code) {
        Some(Op::Store(_)) => without(words, insn.k),
        _ => words,
    }
}

// Adds these words to the marks of each place that follows an instruction.
fn pass_on(insn: Insn, at: usize, words: Words, marks: &mut [Words])
    requires { at < 4096 }
    ensures { marks.new ≡ passed_on (op_of insn.code) insn at words marks.old }
{
    match decode(insn.code) {
        Some(Op::Jump) => join(marks, at + 1 + insn.k as usize, words),
        Some(Op::JumpIf(_, _)) => {
            join(marks, at + 1 + insn.jt as usize, words);
            join(marks, at + 1 + insn.jf as usize, words);
        }
        _ => join(marks, at + 1, words),
    }
}

// Returns the place of the first load of a scratch word that some path does not store before. The marks begin empty.
fn first_marked(insns: &[Insn], marks: &mut [Words]) -> Option<usize>
    requires fine { AreFine insns.now }
    requires short { length insns.now ≤ 4096 }
    requires unmarked { marks.old ≡ replicate (length insns.now) 0 }
    ensures { MatchOption result (NoUnstored insns.now) (IsFirstUnstored insns.now) }
{
    join(marks, 0, ALL);
    for (at, insn) in insns.iter().enumerate() {
        let words = marks[at];
        if loads(*insn, words) {
            return Some(at);
        }
        pass_on(*insn, at, left_unstored(*insn, words), marks);
    }
    None
}

/// Returns the place of the first load of a scratch word that some path does not store before.
pub fn first_unstored(alloc: Global, insns: &[Insn]) -> Result<Option<usize>, AllocError>
    requires fine { AreFine insns.now }
    requires short { length insns.now ≤ 4096 }
    ensures the_first { IfOk result (λ place. MatchOption place (NoUnstored insns.now) (IsFirstUnstored insns.now)) }
{
    let mut marks = vec![in alloc; NONE; insns.len()]?;
    Ok(first_marked(insns, &mut marks))
}
