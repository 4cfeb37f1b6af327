//! The words of the data that a program loads.
ghost use Rattle.seccomp_compile.specs.bpf_code.Reading.{IsProgram};
ghost use Rattle.filter_check.specs.Representing.{MarksLoads};

use seccomp_compile::{Insn, LD_W_ABS};

/// Marks the words that the program loads.
pub fn loaded_words(insns: &[Insn]) -> [bool; 16]
    requires program { IsProgram insns.now }
    ensures marks_them { MarksLoads insns.now result }
{
    let mut marks = [false; 16];
    for insn in insns {
        if insn.code == LD_W_ABS {
            marks[insn.k as usize / 4] = true;
        }
    }
    marks
}
