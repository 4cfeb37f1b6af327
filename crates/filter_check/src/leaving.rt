//! Leaves out the ends that other ends represent.
ghost use Rattle.std.specs.Prelude.{◌≡◌, ◌<◌, length, IfOk};
ghost use Rattle.std.specs.Bool.{OnTrue};
ghost use Rattle.seccomp_compile.specs.bpf_code.Reading.{IsProgram};
ghost use Rattle.seccomp_compile.specs.Form.{AreOfForm};
ghost use Rattle.filter_check.specs.Representing.{IsRepresented, LeavesOut};

use crate::filter_paths::End;
use crate::groups::find_representatives;
use crate::loads::loaded_words;
use crate::representing::represents;
use seccomp_compile::Insn;
use std::alloc::{AllocError, Global};

// Returns whether the end that was chosen for this end represents it, and was chosen for itself.
fn is_left_out(ends: &[End], chosen: &[usize], at: usize, loaded: &[bool; 16]) -> bool
    requires place { at < length ends.now }
    requires one_each { length chosen.now ≡ length ends.now }
    ensures represented { OnTrue result (IsRepresented loaded.now ends.now chosen.now at) }
{
    let by = chosen[at];
    if by == at {
        return false;
    }
    if by >= ends.len() {
        return false;
    }
    if chosen[by] != by {
        return false;
    }
    represents(&ends[by], &ends[at], loaded)
}

/// Marks each end that can be left out because an end that is not left out represents it.
pub fn left_out(alloc: Global, ends: &[End], ours: &[Insn]) -> Result<Vec<bool>, AllocError>
    requires program { IsProgram ours.now }
    requires form { AreOfForm ours.now }
    ensures one_each { IfOk result (λ marks. length marks.items ≡ length ends.now) }
    ensures leaves_out { IfOk result (λ marks. LeavesOut ours.now ends.now marks.items) }
{
    let loaded = loaded_words(ours);
    let chosen = find_representatives(alloc, ends, &loaded)?;
    let mut marks = Vec::with_capacity(alloc, ends.len())?;
    for at in 0..ends.len() {
        marks.push(is_left_out(ends, chosen.as_slice(), at, &loaded))?;
    }
    Ok(marks)
}
