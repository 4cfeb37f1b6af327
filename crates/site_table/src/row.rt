//! Defines a row of a site.

use crate::kinds::RowKind;
use abs_path::AbsPath;
use cap_sets::CapSet;

/// A directory, file or executable of a site.
#[derive(Drop)]
pub struct Row {
    pub path: AbsPath,
    pub kind: RowKind,
    /// The owner's uid of a set-uid executable (execve(2)).
    pub setuid: Option<u32>,
    /// The group's gid of a set-gid executable (execve(2)).
    pub setgid: Option<u32>,
    /// The file capabilities of an executable (capabilities(7)).
    pub caps: CapSet,
    /// Whether the file capabilities become effective at once (capabilities(7)).
    pub effective: bool,
}
