// Reads a file of a unit from the shelf and judges it.
ghost use Rattle.std.specs.Prelude.{◌≡◌, ◌∷◌, [], IfOk, IsErrOf};
ghost use Rattle.host_io.specs.Agreeing.{ForFiles};
ghost use Rattle.host_io.specs.Calls.{AsksExactly};
ghost use Rattle.host_io.specs.Causes.{StaysUnless};
ghost use Rattle.host_io.specs.Files.{bytes_at};
ghost use Rattle.unit_grammar.specs.Reading.{unit_of};
ghost use Rattle.dropin_merge.specs.Answers.{HasCause, IsUnlessFailed};
ghost use Rattle.dropin_merge.specs.Asking.{course, unit_file};
ghost use Rattle.dropin_merge.specs.Judging.{said};
ghost use Rattle.dropin_merge.specs.Steps.{file_at, LiesAt, RefusesAt};
ghost use Rattle.dropin_merge.specs.declared.errors.ResolveError.TheVariants.{ReadFault};

use crate::errors::ResolveError;
use crate::resolved::UnitFile;
use host_io::{Shelf, ShelfError};
use std::alloc::Global;
use unit_grammar::{Text, UnitError, read_unit};

/// The finding at a path.
#[derive(Drop)]
pub enum Found {
    /// No file.
    Missing,
    /// A file of zero bytes.
    Empty,
    /// A file with a text.
    Says(UnitFile),
}

/// The most bytes of a file: 1 MiB.
const MOST_BYTES: u64 = 1_048_576;

// Returns the file with this path and these bytes, if its text is accepted.
fn judge_file(alloc: Global, path: &str, bytes: &[u8]) -> Result<UnitFile, ResolveError>
    ensures judges { IsUnlessFailed result (said path.now (unit_of bytes.now)) }
    ensures has_the_path { IfOk result (λ file. file.path ≡ path.now) }
    ensures refuses_the_path { RefusesAt (λ p. p ≡ path.now) result }
    ensures no_fault { ¬ IsErrOf result ReadFault }
{
    let path = Text::new(alloc, path)?;
    match read_unit(alloc, bytes) {
        Ok(text) => Ok(UnitFile { path, text }),
        Err(UnitError::Memory) => Err(ResolveError::Memory),
        Err(fault) => Err(ResolveError::Text(path, fault)),
    }
}

/// Reads the path of a file of a unit, which may be missing.
pub fn file_at<S: Shelf>(alloc: Global, shelf: &mut S, path: &str) -> Result<Found, ResolveError>
    ensures has_the_path { IfOk result (LiesAt path.now) }
    ensures refuses_the_path { RefusesAt (λ p. p ≡ path.now) result }
    ensures reads_the_file { ForFiles (S.agrees shelf.new) (λ files. IsUnlessFailed result (file_at path.now (bytes_at files path.now))) }
    ensures asks_for_it { AsksExactly S.asks shelf.old shelf.new (unit_file path.now ∷ []) (course result) }
    ensures answers_stay { ForFiles (S.agrees shelf.new) (S.agrees shelf.old) }
    ensures fault_rose { HasCause (S.faults shelf.old) (S.faults shelf.new) result }
    ensures no_other_fault { StaysUnless ReadFault (S.faults shelf.old) (S.faults shelf.new) result }
{
    match shelf.read(alloc, path, MOST_BYTES) {
        Ok(bytes) if bytes.is_empty() => Ok(Found::Empty),
        Ok(bytes) => Ok(Found::Says(judge_file(alloc, path, bytes.as_slice())?)),
        Err(ShelfError::Missing) => Ok(Found::Missing),
        Err(ShelfError::TooLarge) => Err(ResolveError::TooLarge(Text::new(alloc, path)?)),
        Err(ShelfError::Failed) => Err(ResolveError::ReadFault),
        Err(ShelfError::Memory) => Err(ResolveError::Memory),
    }
}
