//! One question of a launched service.

use crate::question_types::wish::Wish;
use filter_settings::linux_numbers::namespaces::NamespaceType;

/// Can a process of the service, now or after any calls, have a call done that does this?
///
/// Rows, calls and families go by their numbers in the tables, from 0.
#[derive(Clone, Copy)]
pub enum Question {
    /// See, read, write or execute the row of this number, by a call or by a ring.
    Path(Wish, usize),
    /// Make the call of this number in the table's list of all calls, which no rule of the kernel names, by any ABI.
    Call(usize),
    /// Make a socket of the family of this number, socket(2), socketcall(2), socketpair(2), or by a ring.
    Socket(usize),
    /// Make a namespace of this type, clone(2), unshare(2).
    Namespace(NamespaceType),
    /// Map memory to be written and executed, mmap(2).
    MapWx,
    /// Make mapped memory executable, mprotect(2).
    ProtectX,
    /// Attach shared memory to be executed, shmat(2).
    ShmX,
    /// Take a realtime policy, sched(7).
    Realtime,
    /// Take another execution domain, personality(2).
    Personality,
    /// Set a set-user-id or set-group-id bit of a file, chmod(2), inode(7), or by a ring.
    SuidBit,
    /// Or have this capability effective, capabilities(7)?
    Cap(u8),
    /// Or have this effective uid, credentials(7)?
    Uid(u32),
    /// Or have this gid, effective or among its groups, credentials(7)?
    Gid(u32),
}
