//! Defines the result of a comparison.
ghost use Rattle.std.specs.Prelude.{◌≡◌};
ghost use Rattle.filter_check.specs.declared.outcome.CheckError.TheVariants.{Memory};

use seccomp_compile::CallData;
use std::alloc::AllocError;
use thiserror::Error;

/// The result of a comparison.
#[derive(Clone, Copy)]
pub enum Outcome {
    /// The program decides every call like the rules. The number counts its paths.
    Same(u32),
    /// The program and the rules differ. The least call data on which they do is given with both answers.
    Differs {
        at: CallData,
        theirs: u32,
        ours: u32,
    },
}

/// Says why a program could not be compared.
#[derive(Clone, Copy, Debug, PartialEq, Eq, Error)]
pub enum CheckError {
    /// The code of this instruction does not have the form.
    #[error("instruction {0}: not of the form")]
    Form(u32),
    /// The program has more than 16,384 paths.
    #[error("more than 16384 paths")]
    TooManyPaths,
    /// Memory ran out.
    #[error("out of memory")]
    Memory,
}

impl From<AllocError> for CheckError {
    ghost from_gives = { λ _ e. e ≡ Memory };

    fn from(_: AllocError) -> Self {
        CheckError::Memory
    }
}
