//! Says why a file is not a program.
ghost use Rattle.std.specs.Prelude.{◌≡◌};
ghost use Rattle.filter_check.specs.declared.filter_lines.error.FileError.TheVariants.{Memory};

use seccomp_compile::ProgramError;
use std::alloc::AllocError;
use thiserror::Error;

/// Says why a file is not a program.
#[derive(Clone, Copy, Debug, PartialEq, Eq, Error)]
pub enum FileError {
    /// The bytes are not text.
    #[error("not text")]
    NotText,
    /// The line of this number, from 1, is the first that is not sixteen lower-case hex digits.
    #[error("line {0}: not sixteen hex digits")]
    Digits(u64),
    /// The instructions are not a program. The error is never that memory ran out.
    #[error("no program: {0}")]
    Program(ProgramError),
    /// Memory ran out.
    #[error("out of memory")]
    Memory,
}

impl From<AllocError> for FileError {
    ghost from_gives = { λ _ e. e ≡ Memory };

    fn from(_: AllocError) -> Self {
        FileError::Memory
    }
}
