//! Says why the paths of a unit are refused.
ghost use Rattle.std.specs.Prelude.{◌≡◌};
ghost use Rattle.mount_settings.specs.declared.error.MountSettingsError.TheVariants.{Memory};

use std::alloc::AllocError;
use thiserror::Error;

/// Says why the paths of a unit are refused.
#[derive(Clone, Copy, Debug, Error)]
pub enum MountSettingsError {
    /// More than 128 written paths are in force.
    #[error("more than 128 paths are written")]
    TooManyPaths,
    /// Memory ran out.
    #[error("out of memory")]
    Memory,
}

impl From<AllocError> for MountSettingsError {
    ghost from_gives = { λ _ e. e ≡ Memory };

    fn from(_: AllocError) -> Self {
        MountSettingsError::Memory
    }
}
