//! What a call asks for.

use crate::question_types::wish::Wish;
use filter_settings::linux_numbers::namespaces::NamespaceType;

/// What a call asks for, syscalls(2).
#[derive(Clone, Copy)]
pub enum CallKind {
    /// That a row of the site is seen, read, written or executed.
    ForPath(Wish),
    /// Nothing but the call itself, which no rule of the kernel names.
    PlainCall,
    /// A socket of the family of this number, socket(2), socketcall(2), socketpair(2).
    ForFamily(u32),
    /// A namespace of this type, clone(2), unshare(2).
    ForNamespace(NamespaceType),
    /// Memory to be written and executed, mmap(2).
    MapsWx,
    /// Memory to be executed, mprotect(2).
    ProtectsX,
    /// Shared memory to be executed, shmat(2).
    AttachesX,
    /// Shared memory to be executed and not written, shmat(2).
    AttachesReadOnlyX,
    /// A realtime policy, sched(7).
    SchedulesRealtime,
    /// A set-id bit of a file that open(2) or openat(2) makes.
    OpensMode,
    /// A set-id bit of a file that creat(2) makes and opens for writing.
    CreatesMode,
    /// A realtime policy by sched_setattr(2), which needs CAP_SYS_NICE.
    SetsRealtime,
    /// Another execution domain, personality(2).
    TakesPersonality,
    /// A mode with a set-user-id or set-group-id bit, chmod(2), inode(7).
    SetsMode,
    /// Another mount table, mount(2).
    ChangesMounts,
    /// Fewer mounts, umount2(2).
    RemovesMounts,
    /// Other sets of capabilities, capset(2).
    SetsCaps,
    /// Another uid, setuid(2), setresuid(2).
    TakesUid,
    /// Another gid, setgid(2), setresgid(2), setgroups(2).
    TakesGid,
    /// A ring, io_uring_setup(2).
    SetsUpRing,
    /// A request to a ring, io_uring_enter(2).
    Submits,
}
