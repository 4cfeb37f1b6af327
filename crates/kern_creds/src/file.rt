//! The marks of an executable file, which execve(2) reads.

use cap_sets::CapSet;

/// The marks of an executable file: its set-id bits and its capabilities, capabilities(7), "File capabilities".
#[derive(Clone, Copy)]
pub struct FileCreds {
    /// The owner, if the set-user-id bit is on.
    pub setuid: Option<u32>,
    /// The group, if the set-group-id bit is on.
    pub setgid: Option<u32>,
    /// The file's permitted set.
    pub caps: CapSet,
    /// The file's effective bit.
    pub effective: bool,
}
