//! Finds the ends of a program's paths, from its first instruction on.
ghost use Rattle.std.specs.Prelude.{◌≡◌, IfOk};
ghost use Rattle.seccomp_compile.specs.bpf_code.Reading.{IsProgram};
ghost use Rattle.seccomp_compile.specs.Form.{AreOfForm};
ghost use Rattle.filter_check.specs.filter_paths.Walked.{TellsPaths};

use crate::filter_paths::ends::add_ends;
use crate::filter_paths::held::Held;
use crate::filter_paths::region::Region;
use crate::filter_paths::states::{End, State};
use seccomp_compile::Insn;
use std::alloc::{AllocError, Global};

/// Returns the state of these data at the first instruction.
pub fn start(region: Region) -> State
    ensures first { result.at ≡ 0 }
    ensures nothing { result.held.mask ≡ 0 }
    ensures region { result.region ≡ region }
{
    State {
        at: 0,
        held: Held::nothing(),
        region,
    }
}

/// Returns an end for each path of a program. None if it has more paths than `most`.
pub fn all_ends(alloc: Global, insns: &[Insn], most: usize) -> Result<Option<Vec<End>>, AllocError>
    requires program { IsProgram insns.now }
    requires form { AreOfForm insns.now }
    ensures tells_paths { IfOk result (TellsPaths insns.now most) }
{
    let mut found = Vec::new(alloc);
    if add_ends(alloc, insns, start(Region::all(alloc)?), most, &mut found)? {
        Ok(Some(found))
    } else {
        Ok(None)
    }
}
