//! Turns comparisons into conditions on a word.
ghost use Rattle.std.specs.Prelude.{◌≡◌, ℕ, bit_and};
ghost use Rattle.filter_check.specs.word_sets.Conditions.{meets};
ghost use Rattle.filter_check.specs.filter_paths.Comparing.{compares};

use crate::word_sets::{Condition, Orders};
use seccomp_compile::{Insn, JMP_JEQ_K, JMP_JGE_K, JMP_JGT_K};

/// Returns the condition on a word under which a comparison holds, if the accumulator is the word under a mask.
pub fn condition_of(insn: Insn, mask: u32) -> Condition
    ensures by_the_masked_word { (word : ℕ) → meets result word ≡ compares insn (bit_and word mask) }
{
    if insn.code == JMP_JEQ_K {
        return Condition {
            mask,
            number: insn.k,
            orders: Orders {
                below: false,
                equal: true,
                above: false,
            },
        };
    }
    if insn.code == JMP_JGT_K {
        return Condition {
            mask,
            number: insn.k,
            orders: Orders {
                below: false,
                equal: false,
                above: true,
            },
        };
    }
    if insn.code == JMP_JGE_K {
        return Condition {
            mask,
            number: insn.k,
            orders: Orders {
                below: false,
                equal: true,
                above: true,
            },
        };
    }
    Condition {
        mask: mask & insn.k,
        number: 0,
        orders: Orders {
            below: false,
            equal: false,
            above: true,
        },
    }
}
