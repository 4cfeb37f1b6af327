// Reads files of the shelf for the commands.
ghost use Rattle.std.specs.Prelude.{◌≡◌, ◌∷◌, [], IfOk};
ghost use Rattle.exec_settings.specs.host_io.Agreeing.{ForFiles};
ghost use Rattle.exec_settings.specs.host_io.Calls.{AsksExactly};
ghost use Rattle.unit_inputs.specs.command_answers.Asking.{course, input_file};
ghost use Rattle.unit_inputs.specs.command_answers.CommandErrors.{HasReadCause, RefusesNothing};
ghost use Rattle.unit_inputs.specs.command_answers.ReadFiles.{ReadsContent};

use crate::command_answers::error::CommandError;
use host_io::{Shelf, ShelfError};
use std::alloc::Global;

/// The most bytes of a file: 1 MiB.
const MOST_BYTES: u64 = 1_048_576;

/// The path of the table of system calls.
pub const TABLE_PATH: &str = "calls.txt";

/// The contents of a file.
#[derive(Drop)]
pub enum FileRead {
    /// The file has these bytes, at most 1 MiB.
    Bytes(Vec<u8>),
    /// No file has the path.
    Missing,
    /// The file has more than 1 MiB.
    TooLarge,
}

/// Reads the file at a path.
pub fn read_file<S: Shelf>(
    alloc: Global,
    shelf: &mut S,
    path: &str,
) -> Result<FileRead, CommandError>
    ensures reads_the_file { IfOk result (ReadsContent path.now (S.agrees shelf.new)) }
    ensures refuses_nothing { RefusesNothing result }
    ensures asks_for_it { AsksExactly S.asks shelf.old shelf.new (input_file path.now ∷ []) (course result) }
    ensures answers_stay { ForFiles (S.agrees shelf.new) (S.agrees shelf.old) }
    ensures fault_rose { HasReadCause (S.faults shelf.old) (S.faults shelf.new) result }
{
    match shelf.read(alloc, path, MOST_BYTES) {
        Ok(bytes) => Ok(FileRead::Bytes(bytes)),
        Err(ShelfError::Missing) => Ok(FileRead::Missing),
        Err(ShelfError::TooLarge) => Ok(FileRead::TooLarge),
        Err(ShelfError::Failed) => Err(CommandError::ReadFault),
        Err(ShelfError::Memory) => Err(CommandError::Memory),
    }
}
