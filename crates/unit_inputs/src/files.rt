// Reads the bytes of a required file.
ghost use Rattle.std.specs.Prelude.{◌≡◌, ◌∷◌, []};
ghost use Rattle.exec_settings.specs.host_io.Agreeing.{ForFiles};
ghost use Rattle.exec_settings.specs.host_io.Calls.{AsksExactly};
ghost use Rattle.unit_inputs.specs.command_answers.Asking.{course, input_file};
ghost use Rattle.unit_inputs.specs.command_answers.CommandErrors.{HasReadCause, IsAnswer};
ghost use Rattle.unit_inputs.specs.FileRefusals.{bytes_in};

use crate::command_answers::{CommandError, FileRead, read_file, refuse, refused_line};
use host_io::Shelf;
use std::alloc::Global;

/// Returns the bytes of a file, which is refused if it is missing or has more than 1 MiB.
pub fn read_input<S: Shelf>(
    alloc: Global,
    shelf: &mut S,
    path: &str,
) -> Result<Vec<u8>, CommandError>
    ensures reads_the_file { ForFiles (S.agrees shelf.new) (λ files. IsAnswer (λ bytes. bytes.items) result (bytes_in files path.now)) }
    ensures asks_for_it { AsksExactly S.asks shelf.old shelf.new (input_file path.now ∷ []) (course result) }
    ensures answers_stay { ForFiles (S.agrees shelf.new) (S.agrees shelf.old) }
    ensures fault_rose { HasReadCause (S.faults shelf.old) (S.faults shelf.new) result }
{
    match read_file(alloc, shelf, path) {
        Ok(FileRead::Bytes(bytes)) => Ok(bytes),
        Ok(FileRead::Missing) => Err(refuse(refused_line(alloc, path, b"missing"))),
        Ok(FileRead::TooLarge) => Err(refuse(refused_line(alloc, path, b"too-large"))),
        Err(stop) => Err(stop),
    }
}
