//! Defines why a text is no path, and why a rest is not joined to a path.

ghost use Rattle.std.specs.Prelude.{◌≡◌};
ghost use Rattle.abs_path.specs.declared.error.PathError.TheVariants.{Memory};

use std::alloc::AllocError;
use thiserror::Error;

/// Why a text is no path. If a text has several faults, the fault listed first here is reported.
#[derive(Clone, Copy, Debug, PartialEq, Eq, Error)]
pub enum PathError {
    /// The text has more than 512 bytes.
    #[error("the path has more than 512 bytes")]
    TooLong,
    /// A byte of the text is NUL.
    #[error("the path has a NUL")]
    HasNul,
    /// The text does not begin with a slash.
    #[error("the path does not begin with a slash")]
    Relative,
    /// A part of the text is `..`.
    #[error("the path has a part `..`")]
    DotDot,
    /// Memory ran out for the path.
    #[error("out of memory")]
    Memory,
}

impl From<AllocError> for PathError {
    ghost from_gives = { λ _ e. e ≡ Memory };

    fn from(_: AllocError) -> Self {
        PathError::Memory
    }
}

/// Why a rest is not joined to a path.
#[derive(Clone, Copy, Debug, PartialEq, Eq, Error)]
pub enum JoinError {
    /// The path and the rest have more than 512 bytes together.
    #[error("the path has more than 512 bytes")]
    TooLong,
    /// Memory ran out for the path.
    #[error("out of memory")]
    Memory,
}
