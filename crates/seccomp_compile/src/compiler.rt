//! Compiles a rule set.
ghost use Rattle.std.specs.Prelude.{◌≤◌, length, IfOk};
ghost use Rattle.call_rules.specs.linux_numbers.Limits.{bpf_maxinsns};
ghost use Rattle.call_rules.specs.bpf_code.Reading.{IsProgram};
ghost use Rattle.call_rules.specs.Sizes.{CanCompile, most_insns};
ghost use Rattle.seccomp_compile.specs.Compiled.{Decides, DecidesWithin, longest_path};
ghost use Rattle.seccomp_compile.specs.ShortCases.{HaveShortCases};
ghost use Rattle.seccomp_compile.specs.Form.{AreOfForm};

use crate::decisions::rules_tree;
use crate::emit::place;
use call_rules::{Program, RuleSet};
use std::alloc::{AllocError, Global};
use std::collections::VecDeque;

/// Makes a program that decides every call as the rules do: its answer is the action of the rules, for every number,
/// architecture, instruction pointer and argument words.
///
/// The program has at most `16 + 5c + 2k + 4t + 3w` instructions for c calls, k cases and t tests in all, and w calls
/// that look at the high 32 bits of an argument. That is never more than a program may have. A call takes at most 96
/// instructions, if each rule has short cases: at most 8, or each of them one test of one argument with all of its low
/// 32 bits.
///
/// The condition is at most 512 calls, at most 128 cases over all calls together, and at most 2 tests a case. At most
/// 16 calls may look at the high 32 bits of an argument. `can_compile` tests the condition. The call fails only if
/// memory runs out.
pub fn compile(alloc: Global, rules: &RuleSet) -> Result<Program, AllocError>
    requires { CanCompile rules.now }
    ensures decides_every_call { IfOk result (λ program. Decides program rules.now) }
    ensures is_taken_by_seccomp { IfOk result IsProgram }
    ensures is_of_the_form { IfOk result AreOfForm }
    ensures keeps_within_the_length { IfOk result (λ program. length program ≤ most_insns rules.now) }
    ensures is_never_too_long { most_insns rules.now ≤ bpf_maxinsns }
    ensures within_the_path_length { HaveShortCases rules.now → IfOk result (λ program. DecidesWithin longest_path program rules.now) }
{
    let tree = rules_tree(alloc, rules)?;
    let mut code = VecDeque::new(alloc);
    place(&mut code, &tree)?;
    Ok(Program::made(code.into_vec()))
}
