//! The drop-in, with the lines of its refusals.
ghost use Rattle.std.specs.Prelude.{◌≡◌, ◌∷◌, [], IfOk, IsErrOf};
ghost use Rattle.asked_service.specs.host_io.Agreeing.{ForFiles};
ghost use Rattle.asked_service.specs.host_io.Calls.{AsksExactly};
ghost use Rattle.asked_service.specs.unit_inputs.command_answers.Asking.{course, input_file};
ghost use Rattle.asked_service.specs.unit_inputs.command_answers.Refusals.{refused_line};
ghost use Rattle.asked_service.specs.unit_inputs.command_answers.CommandErrors.{HasReadCause, IsAnswer};
ghost use Rattle.asked_service.specs.unit_inputs.UnitRefusals.{text_cause};
ghost use Rattle.effect_command.specs.Longer.{dropin_in, dropin_said};

use asked_service::{
    CommandError, ResolveError, Text, UnitError, UnitText, read_input, read_unit, refuse,
    unit_inputs_unit_line as unit_line,
};
use host_io::Shelf;
use std::alloc::{AllocError, Global};

// The line of a drop-in that is refused for its text.
fn text_line(alloc: Global, path: &str, error: UnitError) -> Result<Vec<u8>, AllocError>
    ensures { IfOk result (λ line. line.items ≡ refused_line path.now (text_cause error)) }
{
    let file = Text::new(alloc, path)?;
    unit_line(alloc, path, &ResolveError::Text(file, error))
}

// What the bytes of a drop-in say.
fn said(alloc: Global, path: &str, bytes: &[u8]) -> Result<UnitText, CommandError>
    ensures says { IsAnswer (λ text. text) result (dropin_said path.now bytes.now) }
    ensures reads_nothing { IsErrOf result CommandError.ReadFault → ⊥ }
{
    match read_unit(alloc, bytes) {
        Ok(text) => Ok(text),
        Err(UnitError::Memory) => Err(CommandError::Memory),
        Err(error) => Err(refuse(text_line(alloc, path, error))),
    }
}

/// The drop-in at a path, or the line of its first refusal: it is there, has at most 1 MiB, and can be read as a file of a unit.
pub fn read_dropin<S: Shelf>(
    alloc: Global,
    shelf: &mut S,
    path: &str,
) -> Result<UnitText, CommandError>
    ensures reads_the_dropin { ForFiles (S.agrees shelf.new) (λ files. IsAnswer (λ text. text) result (dropin_in files path.now)) }
    ensures asks_for_it { AsksExactly S.asks shelf.old shelf.new (input_file path.now ∷ []) (course result) }
    ensures answers_stay { ForFiles (S.agrees shelf.new) (S.agrees shelf.old) }
    ensures fault_rose { HasReadCause (S.faults shelf.old) (S.faults shelf.new) result }
{
    let bytes = read_input(alloc, shelf, path)?;
    said(alloc, path, bytes.as_slice())
}
