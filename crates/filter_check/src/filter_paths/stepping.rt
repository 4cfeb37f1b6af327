//! Follows the data of a state through an instruction.
ghost use Rattle.std.specs.Prelude.{◌≡◌, ◌<◌, length, IfOk, slice_get, Some};
ghost use Rattle.seccomp_compile.specs.bpf_code.Reading.{IsProgram};
ghost use Rattle.seccomp_compile.specs.Form.{AreOfForm};
ghost use Rattle.filter_check.specs.filter_paths.Covered.{IsComparison, LeadsAll, StepsTo};

use crate::filter_paths::comparing::condition_of;
use crate::filter_paths::held::Held;
use crate::filter_paths::states::{End, Next, State};
use crate::word_sets::narrow;
use seccomp_compile::{ALU_AND_K, Insn, JMP_JA, LD_W_ABS, RET_K};
use std::alloc::{AllocError, Global};

// Returns the state after a load of a word.
fn loaded(insns: &[Insn], insn: Insn, state: State) -> State
    requires program { IsProgram insns.now }
    requires found { slice_get insns.now state.at ≡ Some insn }
    requires code { insn.code ≡ 32 }
    ensures { LeadsAll insns.now state result }
{
    State {
        at: state.at + 1,
        held: Held {
            word: insn.k as usize / 4,
            mask: u32::MAX,
        },
        region: state.region,
    }
}

// Returns the state after a mask.
fn masked(insns: &[Insn], insn: Insn, state: State) -> State
    requires program { IsProgram insns.now }
    requires found { slice_get insns.now state.at ≡ Some insn }
    requires code { insn.code ≡ 84 }
    ensures { LeadsAll insns.now state result }
{
    State {
        at: state.at + 1,
        held: Held {
            word: state.held.word,
            mask: state.held.mask & insn.k,
        },
        region: state.region,
    }
}

// Returns the state after a jump.
fn jumped(insns: &[Insn], insn: Insn, state: State) -> State
    requires program { IsProgram insns.now }
    requires found { slice_get insns.now state.at ≡ Some insn }
    requires code { insn.code ≡ 5 }
    ensures { LeadsAll insns.now state result }
{
    State {
        at: state.at + 1 + insn.k as usize,
        held: state.held,
        region: state.region,
    }
}

// Says where a comparison leads.
fn compared(alloc: Global, insns: &[Insn], insn: Insn, state: State) -> Result<Next, AllocError>
    requires program { IsProgram insns.now }
    requires found { slice_get insns.now state.at ≡ Some insn }
    requires code { IsComparison insn }
    ensures { IfOk result (StepsTo insns.now state) }
{
    let State { at, held, region } = state;
    let hit_at = at + 1 + insn.jt as usize;
    let miss_at = at + 1 + insn.jf as usize;
    if hit_at == miss_at {
        return Ok(Next::One(State {
            at: hit_at,
            held,
            region,
        }));
    }
    let condition = condition_of(insn, held.mask);
    match narrow(alloc, region.word(held.word), condition.failing())? {
        None => Ok(Next::One(State {
            at: hit_at,
            held,
            region,
        })),
        Some(miss) => match narrow(alloc, region.word(held.word), condition)? {
            None => Ok(Next::One(State {
                at: miss_at,
                held,
                region,
            })),
            Some(hit) => {
                let other = region.copy(alloc)?.with_word(held.word, hit);
                let first = State {
                    at: hit_at,
                    held,
                    region: other,
                };
                let second = State {
                    at: miss_at,
                    held,
                    region: region.with_word(held.word, miss),
                };
                Ok(Next::Two(first, second))
            }
        },
    }
}

/// Says where the instruction at a state leads its data.
pub fn next(alloc: Global, insns: &[Insn], state: State) -> Result<Next, AllocError>
    requires program { IsProgram insns.now }
    requires form { AreOfForm insns.now }
    requires inside { state.at < length insns.now }
    ensures steps { IfOk result (StepsTo insns.now state) }
{
    let insn = insns[state.at];
    if insn.code == RET_K {
        return Ok(Next::End(End {
            least: state.region.least(),
            region: state.region,
            answer: insn.k,
        }));
    }
    if insn.code == LD_W_ABS {
        return Ok(Next::One(loaded(insns, insn, state)));
    }
    if insn.code == ALU_AND_K {
        return Ok(Next::One(masked(insns, insn, state)));
    }
    if insn.code == JMP_JA {
        return Ok(Next::One(jumped(insns, insn, state)));
    }
    compared(alloc, insns, insn, state)
}
