// Defines why a command is not prepared.
ghost use Rattle.std.specs.Prelude.{◌≡◌, IfOk, IsErrOf};
ghost use Rattle.unit_inputs.specs.command_answers.CommandErrors.{RefusesNothing, error_of_line};
ghost use Rattle.unit_inputs.specs.declared.command_answers.error.CommandError.TheVariants.{Memory};

use std::alloc::{AllocError, AllocFailed, Global};

/// Why a command is not prepared.
#[derive(Drop)]
pub enum CommandError {
    /// An input is refused, with this line.
    Refused(Vec<u8>),
    /// A read failed.
    ReadFault,
    /// Memory ran out.
    Memory,
}

impl From<AllocError> for CommandError {
    ghost from_gives = { λ _ e. e ≡ Memory };

    fn from(_: AllocError) -> Self {
        CommandError::Memory
    }
}

impl<T: Drop> From<AllocFailed<T>> for CommandError {
    ghost from_gives = { λ _ e. e ≡ Memory };

    fn from(_: AllocFailed<T>) -> Self {
        CommandError::Memory
    }
}

/// Returns the error that prints this line, or `Memory` if memory ran out for the line.
pub fn refuse(line: Result<Vec<u8>, AllocError>) -> CommandError
    ensures tells_the_line { result ≡ error_of_line line }
{
    match line {
        Ok(line) => CommandError::Refused(line),
        Err(_) => CommandError::Memory,
    }
}

/// Puts a large value on the heap, so that a step that fails frees it at little cost.
pub fn boxed<T: Drop>(alloc: Global, value: T) -> Result<Box<T>, CommandError>
    ensures holds_the_value { IfOk result (λ held. held.value ≡ value) }
    ensures refuses_nothing { RefusesNothing result }
    ensures reads_nothing { IsErrOf result CommandError.ReadFault → ⊥ }
{
    match Box::new(alloc, value) {
        Ok(held) => Ok(held),
        Err(_) => Err(CommandError::Memory),
    }
}
