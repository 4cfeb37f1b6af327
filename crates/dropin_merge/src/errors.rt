// Defines why a unit has no files in force.
ghost use Rattle.std.specs.Prelude.{◌≡◌};
ghost use Rattle.dropin_merge.specs.declared.errors.ResolveError.TheVariants.{Memory};

use std::alloc::AllocError;
use thiserror::Error;
use unit_grammar::{Text, UnitError};

/// Why a unit is not resolved.
#[derive(Debug, Drop, Error)]
pub enum ResolveError {
    /// The text is no name of a service.
    #[error("no name of a service")]
    BadName,
    /// No location has a fragment of the name, or of its template.
    #[error("no fragment")]
    NotFound,
    /// The fragment has zero bytes.
    #[error("the unit is masked")]
    Masked,
    /// A folder of drop-ins in one location has more than 4,096 files, or more than 256 drop-ins are to be read.
    #[error("too many drop-ins")]
    DropIns,
    /// The file at this path has more than 1 MiB.
    #[error("a file of the unit is too large")]
    TooLarge(Text),
    /// The text of the file at this path is refused.
    #[error("a file of the unit is refused: {1}")]
    Text(Text, UnitError),
    /// A read of the shelf failed, and its count of faults rose.
    #[error("a read failed")]
    ReadFault,
    /// Memory ran out.
    #[error("out of memory")]
    Memory,
}

impl From<AllocError> for ResolveError {
    ghost from_gives = { λ _ e. e ≡ Memory };

    fn from(_: AllocError) -> Self {
        ResolveError::Memory
    }
}
