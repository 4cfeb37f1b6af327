//! Finds the least difference of two programs.
//!
//! The walk through our program starts with the data of an end of theirs, and follows only what some of these data take. It
//! also skips all data after a difference that is found. A word for which a comparison holds is mostly the greater one, so
//! the data for which it does not hold are walked first, and the ends are taken from the last to the first. An end that
//! another end represents is left out.
ghost use Rattle.std.specs.Prelude.{◌<◌, length, IfOk};
ghost use Rattle.seccomp_compile.specs.bpf_code.Reading.{IsProgram};
ghost use Rattle.seccomp_compile.specs.Form.{AreOfForm};
ghost use Rattle.filter_check.specs.Differing.{IsLeastFrom, IsLesser};

use crate::differences::{Difference, is_passed, lesser};
use crate::filter_paths::{End, Next, State, next, start};
use crate::leaving::left_out;
use seccomp_compile::Insn;
use std::alloc::{AllocError, Global};

// Returns the lesser of the earlier difference and the least difference at the data of a state. On these data their
// program gives this answer.
fn least_at(
    alloc: Global,
    ours: &[Insn],
    state: State,
    theirs: u32,
    old: Option<Difference>,
) -> Result<Option<Difference>, AllocError>
    requires program { IsProgram ours.now }
    requires form { AreOfForm ours.now }
    requires inside { state.at < length ours.now }
    ensures lesser { IfOk result (IsLesser ours.now state theirs old) }
{
    if is_passed(old, &state.region) {
        return Ok(old);
    }
    match next(alloc, ours, state)? {
        Next::End(end) => Ok(lesser(old, &end, theirs)),
        Next::One(state) => least_at(alloc, ours, state, theirs, old),
        Next::Two(first, second) => {
            let least = least_at(alloc, ours, second, theirs, old)?;
            least_at(alloc, ours, first, theirs, least)
        }
    }
}

/// Finds the least call data at which our program answers otherwise than a program with these ends.
pub fn least_difference(
    alloc: Global,
    ends: &[End],
    ours: &[Insn],
) -> Result<Option<Difference>, AllocError>
    requires program { IsProgram ours.now }
    requires form { AreOfForm ours.now }
    ensures least { IfOk result (IsLeastFrom ends.now ours.now) }
{
    let marks = left_out(alloc, ends, ours)?;
    let mut least = None;
    let mut at = ends.len();
    while at > 0 {
        at -= 1;
        if marks[at] {
            continue;
        }
        let end = &ends[at];
        let own = start(end.region.copy(alloc)?);
        least = least_at(alloc, ours, own, end.answer, least)?;
    }
    Ok(least)
}
