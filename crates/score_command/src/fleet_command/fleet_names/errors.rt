//! Why the units of a host are not named.
ghost use Rattle.std.specs.Prelude.{◌≡◌};
ghost use Rattle.score_command.specs.declared.fleet_command.fleet_names.errors.NamesError.TheVariants.{Memory};

use std::alloc::{AllocError, AllocFailed};
use thiserror::Error;

/// Why the units of a host are not named.
#[derive(Clone, Copy, Debug, PartialEq, Eq, Error)]
pub enum NamesError {
    /// A folder of units has more than 4,096 files, or there are more than 1,024 units.
    #[error("too many units")]
    TooMany,
    /// A read failed, and the shelf's count of faults rose.
    #[error("a read failed")]
    ReadFault,
    /// Memory ran out.
    #[error("out of memory")]
    Memory,
}

impl From<AllocError> for NamesError {
    ghost from_gives = { λ _ e. e ≡ Memory };

    fn from(_: AllocError) -> Self {
        NamesError::Memory
    }
}

impl<T: Drop> From<AllocFailed<T>> for NamesError {
    ghost from_gives = { λ _ e. e ≡ Memory };

    fn from(_: AllocFailed<T>) -> Self {
        NamesError::Memory
    }
}
