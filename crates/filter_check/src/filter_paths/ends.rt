//! Finds all ends of a program, by the paths that lead to them.
ghost use Rattle.std.specs.Prelude.{◌≡◌, ◌<◌, ◌≤◌, ◌^◌, length, IfOk, false};
ghost use Rattle.seccomp_compile.specs.bpf_code.Reading.{IsProgram};
ghost use Rattle.seccomp_compile.specs.Form.{AreOfForm};
ghost use Rattle.filter_check.specs.filter_paths.Covered.{AddsEnds};

use crate::filter_paths::states::{End, Next, State};
use crate::filter_paths::stepping::next;
use seccomp_compile::Insn;
use std::alloc::{AllocError, Global};

/// Adds the ends of the paths that the data of a state take from it on. Returns false if there are more ends than `most`.
pub fn add_ends(
    alloc: Global,
    insns: &[Insn],
    state: State,
    most: usize,
    found: &mut Vec<End>,
) -> Result<bool, AllocError>
    requires program { IsProgram insns.now }
    requires form { AreOfForm insns.now }
    requires inside { state.at < length insns.now }
    requires few { length found.old.items ≤ most }
    ensures adds { IfOk result (AddsEnds insns.now state most found.old.items found.new.items) }
    ensures few { length found.new.items ≤ most }
    ensures full { IfOk result (λ all. all ≡ false → length found.new.items ≡ most) }
{
    match next(alloc, insns, state)? {
        Next::End(end) => {
            if found.len() >= most {
                return Ok(false);
            }
            found.push(end)?;
            Ok(true)
        }
        Next::One(state) => add_ends(alloc, insns, state, most, found),
        Next::Two(first, second) => {
            if !add_ends(alloc, insns, first, most, found)? {
                return Ok(false);
            }
            add_ends(alloc, insns, second, most, found)
        }
    }
}
