//! The requests that io_uring_enter(2) submits to a ring, as far as they do what a filter can refuse to a call.

use abs_path::AbsPath;

/// A request to a ring. The kernel performs it as it performs a call, but no filter sees it.
#[derive(Drop)]
pub enum Request {
    /// IORING_OP_STATX: like statx(2) of the path.
    Stat(AbsPath),
    /// IORING_OP_OPENAT and IORING_OP_OPENAT2: like openat(2) of the path, with the flags.
    Open(AbsPath, u32),
    /// IORING_OP_SOCKET: like socket(2) of the address family.
    Socket(u32),
    /// IORING_OP_MKDIRAT: like mkdirat(2) with the mode.
    Mode(u32),
}
