//! The script, with the lines of its refusals.
ghost use Rattle.std.specs.Prelude.{◌≡◌, ◌∷◌, [], IfOk, IsErrOf};
ghost use Rattle.plan_command.specs.host_io.Agreeing.{ForFiles};
ghost use Rattle.plan_command.specs.host_io.Calls.{AsksExactly};
ghost use Rattle.plan_command.specs.unit_inputs.command_answers.Asking.{course, input_file};
ghost use Rattle.plan_command.specs.unit_inputs.command_answers.CommandErrors.{HasReadCause, IsAnswer};
ghost use Rattle.asked_service.specs.Scripts.{line_cause, script_cause, script_in, script_line, script_said};

use host_io::Shelf;
use plan_command::{CommandError, read_input, refuse, refused_line};
use report_text::{CallTable, Script, ScriptCause, ScriptError, read_script as read_bytes};
use std::alloc::{AllocError, Global};

// Which line is faulty, and why.
fn line_cause(alloc: Global, line: u64, cause: ScriptCause) -> Result<Vec<u8>, AllocError>
    ensures { IfOk result (λ why. why.items ≡ line_cause line cause) }
{
    let cause = cause.text();
    Ok(format!(in alloc; "line {line} {cause}")?.into_bytes())
}

// Why a script is refused.
fn script_cause(alloc: Global, error: ScriptError) -> Result<Vec<u8>, AllocError>
    ensures { IfOk result (λ why. why.items ≡ script_cause error) }
{
    match error {
        ScriptError::NotText => b"not-text".to_vec(alloc),
        ScriptError::Line(line, cause) => line_cause(alloc, line, cause),
        ScriptError::TooMany => b"too-many".to_vec(alloc),
        ScriptError::Memory => Ok(Vec::new(alloc)),
    }
}

// The line of a script that is refused.
fn script_line(alloc: Global, path: &str, error: ScriptError) -> Result<Vec<u8>, AllocError>
    ensures { IfOk result (λ line. line.items ≡ script_line path.now error) }
{
    let why = script_cause(alloc, error)?;
    refused_line(alloc, path, why.as_slice())
}

// The calls that the bytes of a script give.
fn script_of_bytes(
    alloc: Global,
    path: &str,
    calls: &CallTable,
    bytes: &[u8],
) -> Result<Script, CommandError>
    ensures says { IsAnswer (λ script. script) result (script_said path.now calls.now bytes.now) }
    ensures reads_nothing { IsErrOf result CommandError.ReadFault → ⊥ }
{
    match read_bytes(alloc, calls, bytes) {
        Ok(script) => Ok(script),
        Err(ScriptError::Memory) => Err(CommandError::Memory),
        Err(error) => Err(refuse(script_line(alloc, path, error))),
    }
}

/// The calls of the script at a path, with the calls of this table, or the line of the first refusal.
pub fn read_script<S: Shelf>(
    alloc: Global,
    shelf: &mut S,
    path: &str,
    calls: &CallTable,
) -> Result<Script, CommandError>
    ensures reads_the_script { ForFiles (S.agrees shelf.new) (λ files. IsAnswer (λ script. script) result (script_in files path.now calls.now)) }
    ensures asks_for_it { AsksExactly S.asks shelf.old shelf.new (input_file path.now ∷ []) (course result) }
    ensures answers_stay { ForFiles (S.agrees shelf.new) (S.agrees shelf.old) }
    ensures fault_rose { HasReadCause (S.faults shelf.old) (S.faults shelf.new) result }
{
    let bytes = read_input(alloc, shelf, path)?;
    script_of_bytes(alloc, path, calls, bytes.as_slice())
}
