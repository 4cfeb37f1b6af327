// Reads the table of system calls and writes the lines of its refusals.
ghost use Rattle.std.specs.Prelude.{◌≡◌, IfOk, IsErrOf};
ghost use Rattle.exec_settings.specs.host_io.Agreeing.{ForFiles};
ghost use Rattle.exec_settings.specs.host_io.Calls.{AsksExactly};
ghost use Rattle.unit_inputs.specs.command_answers.Asking.{course};
ghost use Rattle.unit_inputs.specs.command_answers.CommandErrors.{HasReadCause, IsAnswer};
ghost use Rattle.unit_inputs.specs.Asking.{table_asks};
ghost use Rattle.unit_inputs.specs.CallsRefusals.{calls_cause, calls_in, calls_line, calls_said, line_cause, no_call};

use crate::command_answers::{CommandError, TABLE_PATH, boxed, refuse, refused_line};
use crate::files::read_input;
use exec_settings::{CallTable, CallsCause, CallsError, push_word, read_calls};
use host_io::Shelf;
use std::alloc::{AllocError, Global};

// Writes which line is faulty, and why.
fn line_cause(alloc: Global, line: u64, cause: CallsCause) -> Result<Vec<u8>, AllocError>
    ensures { IfOk result (λ why. why.items ≡ line_cause line cause) }
{
    let cause = cause.text();
    Ok(format!(in alloc; "line {line} {cause}")?.into_bytes())
}

// Writes which call is missing.
fn no_call(alloc: Global, name: &str) -> Result<Vec<u8>, AllocError>
    ensures { IfOk result (λ why. why.items ≡ no_call name.now) }
{
    let mut why = b"no-call ".to_vec(alloc)?;
    push_word(&mut why, name)?;
    Ok(why)
}

// Writes why a table is refused.
fn calls_cause(alloc: Global, error: &CallsError) -> Result<Vec<u8>, AllocError>
    ensures { IfOk result (λ why. why.items ≡ calls_cause error.now) }
{
    match error {
        CallsError::NotText => b"not-text".to_vec(alloc),
        CallsError::Line(line, cause) => line_cause(alloc, *line, *cause),
        CallsError::NoAbi => b"no-abi".to_vec(alloc),
        CallsError::NoCall(name) => no_call(alloc, name.as_str()),
        CallsError::Memory => Ok(Vec::new(alloc)),
    }
}

// Returns the line of a refused table.
fn calls_line(alloc: Global, error: &CallsError) -> Result<Vec<u8>, AllocError>
    ensures { IfOk result (λ line. line.items ≡ calls_line error.now) }
{
    let why = calls_cause(alloc, error)?;
    refused_line(alloc, TABLE_PATH, why.as_slice())
}

// Returns the table from the bytes of calls.txt.
fn table_of_bytes(alloc: Global, bytes: &[u8]) -> Result<Box<CallTable>, CommandError>
    ensures says { IsAnswer (λ table. table.value) result (calls_said bytes.now) }
    ensures reads_nothing { IsErrOf result CommandError.ReadFault → ⊥ }
{
    match read_calls(alloc, bytes) {
        Ok(table) => boxed(alloc, table),
        Err(CallsError::Memory) => Err(CommandError::Memory),
        Err(error) => Err(refuse(calls_line(alloc, &error))),
    }
}

/// Reads the table from calls.txt.
pub fn read_table<S: Shelf>(alloc: Global, shelf: &mut S) -> Result<Box<CallTable>, CommandError>
    ensures reads_the_table { ForFiles (S.agrees shelf.new) (λ files. IsAnswer (λ table. table.value) result (calls_in files)) }
    ensures asks_for_it { AsksExactly S.asks shelf.old shelf.new table_asks (course result) }
    ensures answers_stay { ForFiles (S.agrees shelf.new) (S.agrees shelf.old) }
    ensures fault_rose { HasReadCause (S.faults shelf.old) (S.faults shelf.new) result }
{
    let bytes = read_input(alloc, shelf, TABLE_PATH)?;
    table_of_bytes(alloc, bytes.as_slice())
}
