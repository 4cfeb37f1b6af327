//! The file of the questions that are to be kept, with the lines of its refusals.
ghost use Rattle.std.specs.Prelude.{◌≡◌, ◌∷◌, [], Contains, IfOk, IsErrOf};
ghost use Rattle.std.specs.List.{All};
ghost use Rattle.asked_service.specs.host_io.Agreeing.{ForFiles};
ghost use Rattle.asked_service.specs.host_io.Calls.{AsksExactly};
ghost use Rattle.asked_service.specs.unit_inputs.command_answers.Asking.{course, input_file};
ghost use Rattle.asked_service.specs.unit_inputs.command_answers.CommandErrors.{HasReadCause};
ghost use Rattle.asked_service.specs.unit_inputs.command_answers.Said.{IsSaid};
ghost use Rattle.asked_service.specs.kernel_laws.Questions.{questions};
ghost use Rattle.tighten_command.specs.KeepFiles.{IsKeepIn, IsKeepOf, keep_cause, keep_line};

use crate::keeping::{KeepError, read_questions};
use crate::tightening::Questions;
use asked_service::{CallTable, CommandError, SiteTable, read_input, refuse, refused_line};
use host_io::Shelf;
use std::alloc::{AllocError, Global};

// Why a file does not say what is to be kept.
fn keep_cause(alloc: Global, error: KeepError) -> Result<Vec<u8>, AllocError>
    ensures { IfOk result (λ why. why.items ≡ keep_cause error) }
{
    match error {
        KeepError::NotText => b"not-text".to_vec(alloc),
        KeepError::Line(number) => Ok(format!(in alloc; "line {number} question")?.into_bytes()),
        KeepError::TooMany => b"too-many".to_vec(alloc),
        KeepError::Memory => Ok(Vec::new(alloc)),
    }
}

// The line of a file that does not say what is to be kept.
fn keep_line(alloc: Global, path: &str, error: KeepError) -> Result<Vec<u8>, AllocError>
    ensures { IfOk result (λ line. line.items ≡ keep_line path.now error) }
{
    let why = keep_cause(alloc, error)?;
    refused_line(alloc, path, why.as_slice())
}

// What the bytes of a file say is to be kept.
fn keep_of_bytes(
    alloc: Global,
    path: &str,
    bytes: &[u8],
    calls: &CallTable,
    site: &SiteTable,
) -> Result<Questions, CommandError>
    ensures says { IsSaid (λ keep. keep) (IsKeepOf calls.now site.now path.now bytes.now) result }
    ensures listed { IfOk result (All (λ question. Contains (questions calls.now site.now) question)) }
    ensures reads_nothing { IsErrOf result CommandError.ReadFault → ⊥ }
{
    match read_questions(alloc, bytes, calls, site) {
        Ok(keep) => Ok(keep),
        Err(KeepError::Memory) => Err(CommandError::Memory),
        Err(error) => Err(refuse(keep_line(alloc, path, error))),
    }
}

/// Reads the questions to be kept from the file at a path, or answers the line of its first refusal.
///
/// The file exists, has at most 1 MiB and is text. Each line that counts is a question of the list, and there are at most 512.
pub fn read_keep<S: Shelf>(
    alloc: Global,
    shelf: &mut S,
    path: &str,
    calls: &CallTable,
    site: &SiteTable,
) -> Result<Questions, CommandError>
    ensures reads_what_is_kept { ForFiles (S.agrees shelf.new) (λ files. IsSaid (λ keep. keep) (IsKeepIn files calls.now site.now path.now) result) }
    ensures listed { IfOk result (All (λ question. Contains (questions calls.now site.now) question)) }
    ensures asks_for_it { AsksExactly S.asks shelf.old shelf.new (input_file path.now ∷ []) (course result) }
    ensures answers_stay { ForFiles (S.agrees shelf.new) (S.agrees shelf.old) }
    ensures fault_rose { HasReadCause (S.faults shelf.old) (S.faults shelf.new) result }
{
    let bytes = read_input(alloc, shelf, path)?;
    keep_of_bytes(alloc, path, bytes.as_slice(), calls, site)
}
