//! Defines the kernels by whose names the calls of a table are read.

/// The kernel that knows the calls of a table by their names.
#[derive(Clone, Copy)]
pub enum Kernel {
    /// The kernel of the base profile.
    Base,
    /// Linux, which has further calls: openat2(2), execveat(2), clone3(2), fchmodat2(2), sched_setattr(2), socketpair(2), setreuid(2),
    /// setregid(2), io_uring_setup(2) and io_uring_enter(2). It looks at the modes of open(2), openat(2) and creat(2).
    Linux,
}
