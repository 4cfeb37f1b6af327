//! Ends that represent other ends in a comparison with a program.
//!
//! The program answers by the words that it loads. Some ends have the same answer and the same conditions on these words. If
//! the program differs from one of them, it differs from all, and the end with the least data has the least difference.
ghost use Rattle.std.specs.Prelude.{List};
ghost use Rattle.std.specs.Bool.{OnTrue};
ghost use Rattle.seccomp_compile.specs.bpf_code.declared.machine.Insn.{Insn};
ghost use Rattle.seccomp_compile.specs.bpf_code.Reading.{IsProgram};
ghost use Rattle.seccomp_compile.specs.Form.{AreOfForm};
ghost use Rattle.filter_check.specs.Representing.{HaveSameSets, MarksLoads, Represents};

use crate::filter_paths::{End, Region};
use crate::order::comes_before;

// Returns whether both regions have the same conditions on each of these words.
fn have_same_sets(one: &Region, other: &Region, loaded: &[bool; 16]) -> bool
    ensures same { OnTrue result (HaveSameSets loaded.now one.now other.now) }
{
    for at in 0..16 {
        if loaded[at] && !one.word(at).has_same_conditions(other.word(at)) {
            return false;
        }
    }
    true
}

/// Returns whether the first end represents the other one, if the program loads only these words.
pub fn represents(one: &End, other: &End, loaded: &[bool; 16]) -> bool
    ensures for_such_programs { OnTrue result ((code : List Insn) → IsProgram code → AreOfForm code → MarksLoads code loaded.now → Represents code one.now other.now) }
{
    if one.answer != other.answer {
        return false;
    }
    if comes_before(&other.region.least(), &one.region.least()) {
        return false;
    }
    have_same_sets(&one.region, &other.region, loaded)
}
