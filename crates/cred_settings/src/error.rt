//! Says why the users and groups of a unit are refused.
ghost use Rattle.std.specs.Prelude.{◌≡◌};
ghost use Rattle.cred_settings.specs.declared.error.IdentityError.TheVariants.{Memory};

use dropin_merge::Text;
use std::alloc::AllocError;
use thiserror::Error;

/// Says why the users and groups of a unit are refused.
#[derive(Debug, Drop, Error)]
pub enum IdentityError {
    /// User= names neither a user of the site nor a number of its range.
    #[error("no user {}", .0.as_str())]
    NoSuchUser(Text),
    /// A word of Group= or SupplementaryGroups= names neither a group of the site nor a number of its range.
    #[error("no group {}", .0.as_str())]
    NoSuchGroup(Text),
    /// Memory ran out.
    #[error("out of memory")]
    Memory,
}

impl From<AllocError> for IdentityError {
    ghost from_gives = { λ _ e. e ≡ Memory };

    fn from(_: AllocError) -> Self {
        IdentityError::Memory
    }
}
