//! Says why a unit has no settings.
ghost use Rattle.std.specs.Prelude.{◌≡◌};
ghost use Rattle.exec_settings.specs.declared.errors.SettingsError.TheVariants.{Memory};

use cred_settings::Text;
use std::alloc::AllocError;
use thiserror::Error;

/// Says why a unit has no settings. Of several reasons the first in this order is reported. Memory may run out for any
/// unit.
#[derive(Debug, Drop, Error)]
pub enum SettingsError {
    /// No command of ExecStart= is in force.
    #[error("no command is in force")]
    NoCommand,
    /// The command that is launched keeps privileges, by `+` or `!` before its program.
    #[error("the command keeps privileges")]
    PrivilegedCommand,
    /// A key asks for something that is not judged. Its name is the first such key in byte order.
    #[error("the setting {} is outside of what is judged", .0.as_str())]
    OutsideProfile(Text),
    /// User= names nobody. The text is its word.
    #[error("no user {}", .0.as_str())]
    NoSuchUser(Text),
    /// Group= or SupplementaryGroups= names no group. The text is the first such word.
    #[error("no group {}", .0.as_str())]
    NoSuchGroup(Text),
    /// The table of calls lacks a group that a setting needs.
    #[error("the table has no group @{}", .0.as_str())]
    MissingGroup(Text),
    /// More than 128 paths are written. Folders, binds and temporary file systems count too.
    #[error("more than 128 paths are written")]
    TooManyPaths,
    /// Memory ran out.
    #[error("out of memory")]
    Memory,
}

impl From<AllocError> for SettingsError {
    ghost from_gives = { λ _ e. e ≡ Memory };

    fn from(_: AllocError) -> Self {
        SettingsError::Memory
    }
}
