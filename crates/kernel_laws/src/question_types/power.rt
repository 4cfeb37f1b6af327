//! How far a process can change mount tables.

/// How far a process can change the mount tables that it sees.
#[derive(Clone, Copy)]
pub enum Power {
    /// Not at all.
    None,
    /// It can take mounts away, umount2(2).
    Unmount,
    /// It can add mounts and give them other flags, mount(2).
    Mount,
}
