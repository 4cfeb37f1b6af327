//! Defines why a site is refused.

ghost use Rattle.std.specs.Prelude.{◌≡◌};
ghost use Rattle.site_table.specs.declared.error.SiteError.TheVariants.{Memory};

use std::alloc::{AllocError, AllocFailed};
use thiserror::Error;

/// The fault of a row. If a row has several faults, the fault listed first here is reported.
#[derive(Clone, Copy, Debug, PartialEq, Eq)]
pub enum RowCause {
    /// A key is unknown, missing, or of a wrong type.
    Key,
    /// `AbsPath` does not read the path, or the path has more than 250 bytes.
    Path,
    /// The kind is unknown, a row of another kind has a key of executables, or `/` or `/proc` is no directory.
    Kind,
    /// An id is above 4,294,967,294 or below 0.
    Number,
    /// A capability is unknown, or a row has `effective` without capabilities.
    Caps,
    /// A row has both an owner's uid and capabilities.
    Both,
    /// An earlier row has the path.
    Duplicate,
    /// The folder of the path is no row of kind dir.
    NoParent,
}

/// Why a site is refused. If a site has several faults, the fault listed first here is reported. If several rows, users or
/// groups are faulty, the first in the file is reported. They are numbered from 1.
#[derive(Clone, Copy, Debug, PartialEq, Eq, Error)]
pub enum SiteError {
    /// The bytes are no TOML.
    #[error("no TOML")]
    NotToml,
    /// `dynamic_uid` is missing or out of range, or a top key is unknown or of a wrong type.
    #[error("the top keys are wrong")]
    Top,
    /// The site has more than 2,048 rows, 512 users or 512 groups.
    #[error("too many rows, users or groups")]
    TooMany,
    /// The row of this number has a fault.
    #[error("row {0}: {1:?}")]
    Row(u64, RowCause),
    /// The user of this number has a key that is unknown, missing or of a wrong type, an id out of
    /// range, or a name that is empty or an earlier user's.
    #[error("user {0}")]
    User(u64),
    /// The group of this number has such a fault.
    #[error("group {0}")]
    Group(u64),
    /// Memory ran out.
    #[error("out of memory")]
    Memory,
}

impl From<AllocError> for SiteError {
    ghost from_gives = { λ _ e. e ≡ Memory };

    fn from(_: AllocError) -> Self {
        SiteError::Memory
    }
}

impl<T: Drop> From<AllocFailed<T>> for SiteError {
    ghost from_gives = { λ _ e. e ≡ Memory };

    fn from(_: AllocFailed<T>) -> Self {
        SiteError::Memory
    }
}
