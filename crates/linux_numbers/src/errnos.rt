//! Error numbers (errno(3)).

ghost use Rattle.std.specs.Prelude.{◌≡◌, map};
ghost use Rattle.linux_numbers.specs.Errnos.{errnos};

/// Operation not permitted.
pub const EPERM: u32 = 1;

/// No such file or directory.
pub const ENOENT: u32 = 2;

/// No such process.
pub const ESRCH: u32 = 3;

/// Interrupted call.
pub const EINTR: u32 = 4;

/// Input/output error.
pub const EIO: u32 = 5;

/// No such device or address.
pub const ENXIO: u32 = 6;

/// Argument list too long.
pub const E2BIG: u32 = 7;

/// Exec format error.
pub const ENOEXEC: u32 = 8;

/// Bad file descriptor.
pub const EBADF: u32 = 9;

/// Resource temporarily unavailable.
pub const EAGAIN: u32 = 11;

/// Not enough space.
pub const ENOMEM: u32 = 12;

/// Permission denied.
pub const EACCES: u32 = 13;

/// Bad address.
pub const EFAULT: u32 = 14;

/// Device or resource busy.
pub const EBUSY: u32 = 16;

/// File exists.
pub const EEXIST: u32 = 17;

/// Invalid cross-device link.
pub const EXDEV: u32 = 18;

/// No such device.
pub const ENODEV: u32 = 19;

/// Not a directory.
pub const ENOTDIR: u32 = 20;

/// Is a directory.
pub const EISDIR: u32 = 21;

/// Invalid argument.
pub const EINVAL: u32 = 22;

/// Too many open files in the system.
pub const ENFILE: u32 = 23;

/// Too many open files.
pub const EMFILE: u32 = 24;

/// Inappropriate I/O control operation.
pub const ENOTTY: u32 = 25;

/// File too large.
pub const EFBIG: u32 = 27;

/// No space left on device.
pub const ENOSPC: u32 = 28;

/// Read-only file system.
pub const EROFS: u32 = 30;

/// Broken pipe.
pub const EPIPE: u32 = 32;

/// Result too large.
pub const ERANGE: u32 = 34;

/// File name too long.
pub const ENAMETOOLONG: u32 = 36;

/// Function not implemented.
pub const ENOSYS: u32 = 38;

/// Operation not supported on socket.
pub const EOPNOTSUPP: u32 = 95;

/// Address family not supported.
pub const EAFNOSUPPORT: u32 = 97;

/// Connection timed out.
pub const ETIMEDOUT: u32 = 110;

/// Connection refused.
pub const ECONNREFUSED: u32 = 111;

/// The error numbers with their names.
const ERRNOS: &[(&str, u32)] = &[
    ("EPERM", EPERM),
    ("ENOENT", ENOENT),
    ("ESRCH", ESRCH),
    ("EINTR", EINTR),
    ("EIO", EIO),
    ("ENXIO", ENXIO),
    ("E2BIG", E2BIG),
    ("ENOEXEC", ENOEXEC),
    ("EBADF", EBADF),
    ("EAGAIN", EAGAIN),
    ("ENOMEM", ENOMEM),
    ("EACCES", EACCES),
    ("EFAULT", EFAULT),
    ("EBUSY", EBUSY),
    ("EEXIST", EEXIST),
    ("EXDEV", EXDEV),
    ("ENODEV", ENODEV),
    ("ENOTDIR", ENOTDIR),
    ("EISDIR", EISDIR),
    ("EINVAL", EINVAL),
    ("ENFILE", ENFILE),
    ("EMFILE", EMFILE),
    ("ENOTTY", ENOTTY),
    ("EFBIG", EFBIG),
    ("ENOSPC", ENOSPC),
    ("EROFS", EROFS),
    ("EPIPE", EPIPE),
    ("ERANGE", ERANGE),
    ("ENAMETOOLONG", ENAMETOOLONG),
    ("ENOSYS", ENOSYS),
    ("EOPNOTSUPP", EOPNOTSUPP),
    ("EAFNOSUPPORT", EAFNOSUPPORT),
    ("ETIMEDOUT", ETIMEDOUT),
    ("ECONNREFUSED", ECONNREFUSED),
];

/// The error numbers with their names, ascending by number.
pub fn errno_names() -> &'static [(&'static str, u32)]
    ensures each_with_its_name { map (λ row. (row.0.now, row.1)) result.now ≡ errnos }
{
    ERRNOS
}
