//! Reads a script, line by line.

ghost use Rattle.std.specs.Prelude.{◌≡◌, ◌≢◌, map, IfOk, IfErr, Ok, Err};
ghost use Rattle.std.specs.List.{All};
ghost use Rattle.kernel_model.specs.text_forms.line_text.Views.{line_view};
ghost use Rattle.script_text.specs.Progress.{Adds, ReadsLine, ReadsScript};
ghost use Rattle.script_text.specs.PrintedAgain.{IsWritten};
ghost use Rattle.script_text.specs.Scripts.{line_call, script_of, script_of_lines};
ghost use Rattle.script_text.specs.declared.error.ScriptError.TheVariants.{Memory};

use crate::Script;
use crate::error::ScriptError;
use crate::line::read_line;
use crate::line_fault::LineFault;
use kernel_model::kernel_calls::Call;
use kernel_model::{CallTable, Line, read_lines, read_text};
use std::alloc::Global;

/// How many calls a script has at most.
const MOST_CALLS: usize = 16384;

// the call of a line, or the refusal that names it
fn read_numbered(alloc: Global, calls: &CallTable, line: &Line) -> Result<Call, ScriptError>
    ensures { ReadsLine (line_view line.now).number (line_call calls.now (line_view line.now)) result }
{
    match read_line(alloc, calls, line) {
        Ok(call) => Ok(call),
        Err(LineFault::Faulty(cause)) => Err(ScriptError::Line(line.number, cause)),
        Err(LineFault::NoMemory) => Err(ScriptError::Memory),
    }
}

// adds a call after the others, where there may be one more
fn add(made: &mut Vec<Call>, call: Call) -> Result<(), ScriptError>
    ensures { Adds made.old.items call made.new.items result }
{
    if made.len() >= MOST_CALLS {
        return Err(ScriptError::TooMany);
    }
    made.push(call).or(Err(ScriptError::Memory))
}

// the calls of the lines that count
fn read_calls(alloc: Global, calls: &CallTable, lines: &[Line]) -> Result<Script, ScriptError>
    ensures { ReadsScript (script_of_lines calls.now (map line_view lines.now)) result }
{
    let mut made = Vec::new(alloc);
    for line in lines {
        add(&mut made, read_numbered(alloc, calls, line)?)?;
    }
    Ok(Script::new(made))
}

#[tactic(auto, unfolding(crate::specs::Scripts::script_of))]
fn read_bytes(alloc: Global, calls: &CallTable, bytes: &[u8]) -> Result<Script, ScriptError>
    ensures { ReadsScript (script_of calls.now bytes.now) result }
{
    let Some(text) = read_text(bytes) else {
        return Err(ScriptError::NotText);
    };
    let Ok(lines) = read_lines(alloc, text) else {
        return Err(ScriptError::Memory);
    };
    read_calls(alloc, calls, lines.as_slice())
}

/// Reads the calls of a script, with the calls of this table.
///
/// The bytes are cut at LF. Empty lines and lines that begin with `#` are skipped, and spaces separate words. A line
/// is `PID NAME [PAYLOAD] [WORD ..]`:
/// - PID is decimal, from 1 and below 2^32.
/// - NAME is a call of the native ABI, or `#` and a decimal number, which has no payload. After the name of an ABI
///   and a colon it is one of that ABI.
/// - WORDs, at most six, are the arguments in their positions: decimal or `0x` and hex digits, below 2^64. Arguments
///   that are not written are 0.
/// - PAYLOAD is what pointers among the words point to, by the call:
///
/// | Call | Payload |
/// |---|---|
/// | stat(2) and similar calls, open(2), openat(2), creat(2), truncate(2), execve(2), umount2(2) | an escaped path |
/// | mount(2) | two escaped paths, source and target |
/// | capset(2) | three numbers below 2^41: the permitted, the effective and the inheritable set |
/// | setgroups(2) | `[id,id,..]`, in decimal |
/// | socketcall(2) | the number of the family, in decimal and below 2^32 |
/// | seccomp(2) | the program in lower-case hex, 16 digits an instruction, or `-` without any |
///
/// Where a version of systemd reads the unit, four calls more have one:
///
/// | Call | Payload |
/// |---|---|
/// | execveat(2) | an escaped path |
/// | openat2(2) | an escaped path, and the flags by which it is opened, in decimal and below 2^32 |
/// | clone3(2) | its flags, in decimal and below 2^32 |
/// | sched_setattr(2) | the number of the policy, in decimal and below 2^32 |
///
/// A script is refused in this order:
/// - `NotText` if the bytes are not UTF-8 or have a NUL.
/// - `Line` for the first faulty line, with the first of its causes in the order of `ScriptCause`.
/// - `TooMany` instead, if a 16,385th call precedes any faulty line.
///
/// The reader does not check whether seccomp(2) takes a program. It reads each printed call of a script again as that
/// call (`print_call`).
pub fn read_script(alloc: Global, calls: &CallTable, bytes: &[u8]) -> Result<Script, ScriptError>
    ensures reads_the_calls { IfOk result (λ script. script_of calls.now bytes.now ≡ Ok script) }
    ensures each_is_printed_again { IfOk result (λ script. All (IsWritten calls.now) script) }
    ensures first_refusal { IfErr result (λ error. error ≢ Memory → script_of calls.now bytes.now ≡ Err error) }
{
    // The call that counts the ABIs says what holds of each table.
    let _abis = calls.abis();
    read_bytes(alloc, calls, bytes)
}
