//! Why there is no report.
ghost use Rattle.std.specs.Prelude.{◌≡◌};
ghost use Rattle.score_command.specs.declared.fleet_command.fleet_report.errors.FleetError.TheVariants.{Memory};

use std::alloc::{AllocError, AllocFailed};
use thiserror::Error;

/// Why there is no report.
#[derive(Clone, Copy, Debug, PartialEq, Eq, Error)]
pub enum FleetError {
    /// The weights of the policy's tests that are not skipped sum to 0.
    #[error("no weight")]
    NoWeight,
    /// A read failed, and the shelf's count of faults rose.
    #[error("a read failed")]
    ReadFault,
    /// Memory ran out.
    #[error("out of memory")]
    Memory,
}

impl From<AllocError> for FleetError {
    ghost from_gives = { λ _ e. e ≡ Memory };

    fn from(_: AllocError) -> Self {
        FleetError::Memory
    }
}

impl<T: Drop> From<AllocFailed<T>> for FleetError {
    ghost from_gives = { λ _ e. e ≡ Memory };

    fn from(_: AllocFailed<T>) -> Self {
        FleetError::Memory
    }
}
