//! Reads the program from the bytes of a file.
ghost use Rattle.std.specs.Prelude.{List, map};
ghost use Rattle.filter_check.specs.filter_lines.Lines.{lines_in};
ghost use Rattle.filter_check.specs.filter_lines.Reading.{Reads, ReadsCode, ReadsLines};

use crate::filter_lines::error::FileError;
use crate::filter_lines::lines::{code_of_lines, lines_in};
use seccomp_compile::{Program, ProgramError, read_text};
use std::alloc::Global;

// Reads a program from the bytes of its instructions.
fn program_of_code(alloc: Global, code: &[u8]) -> Result<Program, FileError>
    ensures reads { ReadsCode code.now result }
{
    match Program::read(alloc, code) {
        Ok(program) => Ok(program),
        Err(ProgramError::Memory) => Err(FileError::Memory),
        Err(error) => Err(FileError::Program(error)),
    }
}

// Reads a program from lines.
fn program_of_lines(alloc: Global, lines: &[&str]) -> Result<Program, FileError>
    ensures reads { ReadsLines (map (λ line. line.now) lines.now) result }
{
    let code = code_of_lines(alloc, lines)?;
    program_of_code(alloc, code.as_slice())
}

// Reads a program from a text.
fn program_of_text(alloc: Global, text: &str) -> Result<Program, FileError>
    ensures reads { ReadsLines (lines_in text.now) result }
{
    let lines = lines_in(alloc, text)?;
    program_of_lines(alloc, lines.as_slice())
}

/// Reads a program from the bytes of a file.
///
/// Returns `NotText` exactly if the bytes are not UTF-8 or have a NUL. `Digits` names the first line that is not an
/// instruction. `Program` says why the instructions are not a program, like `Program::read`. Text after the last line feed is
/// not a line.
pub fn read_program(alloc: Global, bytes: &[u8]) -> Result<Program, FileError>
    ensures reads { Reads bytes.now result }
{
    match read_text(bytes) {
        Some(text) => program_of_text(alloc, text),
        None => Err(FileError::NotText),
    }
}
