//! The comparison of a program with a filter of a unit.
ghost use Rattle.std.specs.Prelude.{◌≡◌, IfOk, IsErrOf};
ghost use Rattle.filter_check.specs.call_rules.Sizes.{CanCompile};
ghost use Rattle.unit_inputs.specs.exec_settings.Dynamic.{unit_filters};
ghost use Rattle.filter_check.specs.Finding.{wanted_by};
ghost use Rattle.unit_inputs.specs.Settled.{AreSettled};
ghost use Rattle.unit_inputs.specs.command_answers.Said.{IsSaid};
ghost use Rattle.check_command.specs.Causes.{check_cause, check_line, no_filter_line};
ghost use Rattle.check_command.specs.Comparing.{Compares, ComparesNamed};
ghost use Rattle.check_command.specs.Prepared.{inputs_in};

use crate::naming::named_filter;
use crate::preparing::Prepared;
use crate::ready::Checked;
use filter_check::{CheckError, Program, RuleSet, check};
use std::alloc::{AllocError, Global};
use unit_inputs::command_answers::{CommandError, refuse, refused_line};
use unit_inputs::push_word;

// Why a program is not compared.
fn check_cause(alloc: Global, error: CheckError) -> Result<Vec<u8>, AllocError>
    ensures { IfOk result (λ why. why.items ≡ check_cause error) }
{
    match error {
        CheckError::Form(place) => Ok(format!(in alloc; "form {place}")?.into_bytes()),
        CheckError::TooManyPaths => b"too-many-paths".to_vec(alloc),
        CheckError::Memory => Ok(Vec::new(alloc)),
    }
}

// The line of a program that is not compared.
fn check_line(alloc: Global, path: &str, error: CheckError) -> Result<Vec<u8>, AllocError>
    ensures { IfOk result (λ line. line.items ≡ check_line path.now error) }
{
    let why = check_cause(alloc, error)?;
    refused_line(alloc, path, why.as_slice())
}

// The line of a unit no filter of which has the name.
fn no_filter_line(alloc: Global, unit: &str, name: &str) -> Result<Vec<u8>, AllocError>
    ensures { IfOk result (λ line. line.items ≡ no_filter_line unit.now name.now) }
{
    let mut why = b"no-filter ".to_vec(alloc)?;
    push_word(&mut why, name)?;
    refused_line(alloc, unit, why.as_slice())
}

// Compares the program of a file with rules.
fn compare_rules(
    alloc: Global,
    path: &str,
    program: &Program,
    rules: &RuleSet,
) -> Result<Checked, CommandError>
    requires can_be_compiled { CanCompile rules.now }
    ensures compares { IsSaid (λ checked. checked.outcome) (Compares path.now program.now (wanted_by rules.now)) result }
    ensures reads_nothing { IsErrOf result CommandError.ReadFault → ⊥ }
{
    match check(alloc, program, rules) {
        Ok(outcome) => Ok(Checked { outcome }),
        Err(CheckError::Memory) => Err(CommandError::Memory),
        Err(error) => Err(refuse(check_line(alloc, path, error))),
    }
}

/// Compares the program that is prepared with the filter that a name means, or finds that it is not on.
pub fn compare(
    alloc: Global,
    unit: &str,
    name: &str,
    path: &str,
    prepared: &Prepared,
) -> Result<Checked, CommandError>
    requires settled { AreSettled (inputs_in prepared.now) prepared.now.unit.settings.value }
    ensures compares { IsSaid (λ checked. checked.outcome) (ComparesNamed unit.now name.now path.now (unit_filters (inputs_in prepared.now).unit (inputs_in prepared.now).calls) (inputs_in prepared.now).calls prepared.now.program) result }
    ensures reads_nothing { IsErrOf result CommandError.ReadFault → ⊥ }
{
    let one = &prepared.unit;
    match named_filter(&one.inputs.calls, one.settings.filters.as_slice(), name) {
        Some(filter) => compare_rules(alloc, path, &prepared.program, &filter.rules),
        None => Err(refuse(no_filter_line(alloc, unit, name))),
    }
}
