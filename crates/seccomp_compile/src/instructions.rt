//! The instructions that a compiled program is made of.
ghost use Rattle.std.specs.Prelude.{◌≡◌, ◌↔◌, IsTrue, true};
ghost use Rattle.call_rules.specs.bpf_code.Reading.{Fits};
ghost use Rattle.seccomp_compile.specs.Form.{is_of_form};
ghost use Rattle.seccomp_compile.specs.Code.{load, mask_by, skip, compare, code_of, end, IsEnd};

use crate::tree::Comparison;
use call_rules::{
    ALU_AND_K, Action, Insn, JMP_JA, JMP_JEQ_K, JMP_JGE_K, JMP_JSET_K, LD_W_ABS, RET_K,
};

// An instruction that is no comparison.
fn plain(code: u16, k: u32) -> Insn
    ensures { result ≡ record { code = code; jt = 0; jf = 0; k = k } }
{
    Insn {
        code,
        jt: 0,
        jf: 0,
        k,
    }
}

/// A = the word of the call data at this offset.
pub fn load_word(offset: u32) -> Insn
    ensures is { result ≡ load offset }
    ensures fits { Fits result }
    ensures formed { is_of_form result ≡ true }
{
    plain(LD_W_ABS, offset)
}

/// A = A and the mask.
pub fn and_mask(mask: u32) -> Insn
    ensures is { result ≡ mask_by mask }
    ensures fits { Fits result }
    ensures formed { is_of_form result ≡ true }
{
    plain(ALU_AND_K, mask)
}

/// Skips this many instructions.
pub fn jump(count: u32) -> Insn
    ensures is { result ≡ skip count }
    ensures fits { Fits result }
    ensures formed { is_of_form result ≡ true }
{
    plain(JMP_JA, count)
}

// The code of a comparison of A with the instruction's number.
fn comparison_code(comparison: Comparison) -> u16
    ensures { result ≡ code_of comparison }
{
    match comparison {
        Comparison::AtLeast => JMP_JGE_K,
        Comparison::Equal => JMP_JEQ_K,
        Comparison::AnyBit => JMP_JSET_K,
    }
}

/// Skips `hit` instructions if the comparison of A with the number holds, and `miss` instructions if it fails.
pub fn jump_if(comparison: Comparison, number: u32, hit: u8, miss: u8) -> Insn
    ensures is { result ≡ compare comparison number hit miss }
    ensures fits { Fits result }
    ensures formed { is_of_form result ≡ true }
{
    Insn {
        code: comparison_code(comparison),
        jt: hit,
        jf: miss,
        k: number,
    }
}

/// Ends with the action.
pub fn answer(action: Action) -> Insn
    ensures is { result ≡ end action }
    ensures fits { Fits result }
    ensures formed { is_of_form result ≡ true }
{
    plain(RET_K, action.word())
}

/// Returns whether the instruction ends with the action.
pub fn is_answer(insn: Insn, action: Action) -> bool
    ensures ends_with_it { IsTrue result ↔ IsEnd action insn }
{
    insn.code == RET_K && insn.k == action.word()
}
