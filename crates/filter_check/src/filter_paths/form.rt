//! Tests the form of programs whose paths can be found.
ghost use Rattle.std.specs.Prelude.{◌≡◌, MatchOption};
ghost use Rattle.seccomp_compile.specs.Form.{is_of_form, AreOfForm};
ghost use Rattle.filter_check.specs.filter_paths.Form.{IsFirstForeign};

use seccomp_compile::{
    ALU_AND_K, Insn, JMP_JA, JMP_JEQ_K, JMP_JGE_K, JMP_JGT_K, JMP_JSET_K, LD_W_ABS, RET_K,
};

fn is_of_form(insn: Insn) -> bool
    ensures { result ≡ is_of_form insn }
{
    matches!(
        insn.code,
        LD_W_ABS | ALU_AND_K | JMP_JA | JMP_JEQ_K | JMP_JGT_K | JMP_JGE_K | JMP_JSET_K | RET_K
    )
}

/// Returns the place of the first instruction whose code does not have the form.
pub fn first_foreign(insns: &[Insn]) -> Option<usize>
    ensures the_first { MatchOption result (AreOfForm insns.now) (IsFirstForeign insns.now) }
{
    for (place, insn) in insns.iter().enumerate() {
        if !is_of_form(*insn) {
            return Some(place);
        }
    }
    None
}
