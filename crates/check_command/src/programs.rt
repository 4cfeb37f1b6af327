//! The program of a file, with the lines of its refusals.
ghost use Rattle.std.specs.Prelude.{◌≡◌, ◌∷◌, [], IfOk, IsErrOf};
ghost use Rattle.unit_inputs.specs.host_io.Agreeing.{ForFiles};
ghost use Rattle.unit_inputs.specs.host_io.Calls.{AsksExactly};
ghost use Rattle.unit_inputs.specs.command_answers.Asking.{course, input_file};
ghost use Rattle.unit_inputs.specs.command_answers.CommandErrors.{HasReadCause};
ghost use Rattle.unit_inputs.specs.command_answers.Said.{IsSaid};
ghost use Rattle.check_command.specs.Causes.{file_cause, file_line, placed, program_cause};
ghost use Rattle.check_command.specs.Programs.{IsProgramIn, IsProgramOf};

use filter_check::filter_lines::{FileError, read_program as read_bytes};
use filter_check::{Program, ProgramError};
use host_io::Shelf;
use std::alloc::{AllocError, Global};
use unit_inputs::command_answers::{CommandError, refuse, refused_line};
use unit_inputs::read_input;

// A cause, and the number of the instruction.
fn placed(alloc: Global, cause: &str, place: u32) -> Result<Vec<u8>, AllocError>
    ensures { IfOk result (λ why. why.items ≡ placed cause.now place) }
{
    Ok(format!(in alloc; "program {cause} {place}")?.into_bytes())
}

// Why instructions are no program.
fn program_cause(alloc: Global, error: ProgramError) -> Result<Vec<u8>, AllocError>
    ensures { IfOk result (λ why. why.items ≡ program_cause error) }
{
    match error {
        ProgramError::Length => b"program length".to_vec(alloc),
        ProgramError::Empty => b"program empty".to_vec(alloc),
        ProgramError::TooLong => b"program too-long".to_vec(alloc),
        ProgramError::Opcode(place) => placed(alloc, "opcode", place),
        ProgramError::Load(place) => placed(alloc, "load", place),
        ProgramError::Scratch(place) => placed(alloc, "scratch", place),
        ProgramError::Shift(place) => placed(alloc, "shift", place),
        ProgramError::DivZero(place) => placed(alloc, "div-zero", place),
        ProgramError::Jump(place) => placed(alloc, "jump", place),
        ProgramError::NoReturn => b"program no-return".to_vec(alloc),
        ProgramError::Unstored(place) => placed(alloc, "unstored", place),
        ProgramError::Memory => Ok(Vec::new(alloc)),
    }
}

// Why a file is no program.
fn file_cause(alloc: Global, error: FileError) -> Result<Vec<u8>, AllocError>
    ensures { IfOk result (λ why. why.items ≡ file_cause error) }
{
    match error {
        FileError::NotText => b"not-text".to_vec(alloc),
        FileError::Digits(line) => Ok(format!(in alloc; "line {line} digits")?.into_bytes()),
        FileError::Program(error) => program_cause(alloc, error),
        FileError::Memory => Ok(Vec::new(alloc)),
    }
}

// The line of a file that is no program.
fn file_line(alloc: Global, path: &str, error: FileError) -> Result<Vec<u8>, AllocError>
    ensures { IfOk result (λ line. line.items ≡ file_line path.now error) }
{
    let why = file_cause(alloc, error)?;
    refused_line(alloc, path, why.as_slice())
}

// The program that the bytes of a file are.
fn program_of_bytes(alloc: Global, path: &str, bytes: &[u8]) -> Result<Program, CommandError>
    ensures says { IsSaid (λ program. program) (IsProgramOf path.now bytes.now) result }
    ensures reads_nothing { IsErrOf result CommandError.ReadFault → ⊥ }
{
    match read_bytes(alloc, bytes) {
        Ok(program) => Ok(program),
        Err(FileError::Memory) => Err(CommandError::Memory),
        Err(error) => Err(refuse(file_line(alloc, path, error))),
    }
}

/// The program of the file at a path, or the line of its first refusal.
pub fn read_program<S: Shelf>(
    alloc: Global,
    shelf: &mut S,
    path: &str,
) -> Result<Program, CommandError>
    ensures reads_the_program { ForFiles (S.agrees shelf.new) (λ files. IsSaid (λ program. program) (IsProgramIn files path.now) result) }
    ensures asks_for_it { AsksExactly S.asks shelf.old shelf.new (input_file path.now ∷ []) (course result) }
    ensures answers_stay { ForFiles (S.agrees shelf.new) (S.agrees shelf.old) }
    ensures fault_rose { HasReadCause (S.faults shelf.old) (S.faults shelf.new) result }
{
    let bytes = read_input(alloc, shelf, path)?;
    program_of_bytes(alloc, path, bytes.as_slice())
}
