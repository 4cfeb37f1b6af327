//! Compares a program with rules.
ghost use Rattle.std.specs.Prelude.{◌≤◌, List, length, IfOk};
ghost use Rattle.seccomp_compile.specs.bpf_code.Meaning.{IsCallData};
ghost use Rattle.seccomp_compile.specs.bpf_code.Reading.{IsProgram};
ghost use Rattle.seccomp_compile.specs.bpf_code.declared.machine.Insn.{Insn};
ghost use Rattle.seccomp_compile.specs.call_rules.Sizes.{CanCompile};
ghost use Rattle.seccomp_compile.specs.Form.{AreOfForm};
ghost use Rattle.filter_check.specs.filter_paths.Traces.{HasPaths};
ghost use Rattle.filter_check.specs.filter_paths.Walked.{AreEndsFor};
ghost use Rattle.filter_check.specs.Finding.{Finds, IsLeastByRules, wanted_by};

use crate::differences::Difference;
use crate::filter_paths::{End, all_ends, first_foreign};
use crate::outcome::{CheckError, Outcome};
use crate::walking::least_difference;
use seccomp_compile::{Insn, Program, RuleSet, compile};
use std::alloc::{AllocError, Global};

/// The greatest number of paths that a program may have.
const MOST_PATHS: usize = 16384;

// Finds the least call data for which the rules want another answer than the ends have.
fn least_by_rules(
    alloc: Global,
    ends: &[End],
    rules: &RuleSet,
) -> Result<Option<Difference>, AllocError>
    requires can_be_compiled { CanCompile rules.now }
    ensures least { IfOk result (IsLeastByRules ends.now rules.now) }
{
    let ours = compile(alloc, rules)?;
    least_difference(alloc, ends, ours.insns())
}

// Returns the outcome for a program with these ends.
fn found(alloc: Global, ends: &[End], rules: &RuleSet) -> Result<Outcome, CheckError>
    requires can_be_compiled { CanCompile rules.now }
    requires few { length ends.now ≤ 16384 }
    ensures finds { (code : List Insn) → AreOfForm code → HasPaths code (length ends.now) → AreEndsFor code IsCallData ends.now → Finds code (wanted_by rules.now) result }
{
    match least_by_rules(alloc, ends, rules)? {
        None => Ok(Outcome::Same(ends.len() as u32)),
        Some(found) => Ok(Outcome::Differs {
            at: found.at,
            theirs: found.theirs,
            ours: found.ours,
        }),
    }
}

// Returns the outcome for a program whose instructions all have the expected form.
fn compared(alloc: Global, insns: &[Insn], rules: &RuleSet) -> Result<Outcome, CheckError>
    requires can_be_compiled { CanCompile rules.now }
    requires program { IsProgram insns.now }
    requires form { AreOfForm insns.now }
    ensures finds { Finds insns.now (wanted_by rules.now) result }
{
    match all_ends(alloc, insns, MOST_PATHS)? {
        None => Err(CheckError::TooManyPaths),
        Some(ends) => found(alloc, ends.as_slice(), rules),
    }
}

/// Compares a program with the rules of a filter, for all call data.
///
/// - `Form` names the first instruction whose code does not have the form.
/// - `TooManyPaths` means that every code has the form, but the program has more than 16,384 paths.
/// - `Same` means that program and rules decide every call alike.
/// - `Differs` has the least call data on which they differ, by its sixteen words in order of their offsets.
///
/// The function needs rules that `compile` accepts.
pub fn check(alloc: Global, program: &Program, rules: &RuleSet) -> Result<Outcome, CheckError>
    requires can_be_compiled { CanCompile rules.now }
    ensures finds { Finds program.now (wanted_by rules.now) result }
{
    let insns = program.insns();
    match first_foreign(insns) {
        Some(place) => Err(CheckError::Form(place as u32)),
        None => compared(alloc, insns, rules),
    }
}
