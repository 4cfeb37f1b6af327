//! Why a call that adds entries is refused.

ghost use Rattle.std.specs.Prelude.{◌≡◌};
ghost use Rattle.kern_mounts.specs.declared.error.MountError.TheVariants.{Memory};

use std::alloc::{AllocError, AllocFailed};
use thiserror::Error;

/// Why a call that adds entries is refused.
#[derive(Clone, Copy, Debug, PartialEq, Eq, Error)]
pub enum MountError {
    /// The call's rule refuses it with this errno.
    #[error("errno {0}")]
    Errno(u32),
    /// Memory ran out.
    #[error("out of memory")]
    Memory,
}

impl<T: Drop> From<AllocFailed<T>> for MountError {
    ghost from_gives = { λ _ e. e ≡ Memory };

    fn from(_: AllocFailed<T>) -> Self {
        MountError::Memory
    }
}

impl From<AllocError> for MountError {
    ghost from_gives = { λ _ e. e ≡ Memory };

    fn from(_: AllocError) -> Self {
        MountError::Memory
    }
}
