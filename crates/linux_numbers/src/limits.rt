//! Limits and special numbers.

/// The greatest number that a system call can return as an error, <linux/err.h>.
pub const MAX_ERRNO: u32 = 4_095;

/// The id -1: no id, or an unchanged id, setresuid(2).
pub const NO_ID: u32 = 0xffff_ffff;

/// The most supplementary groups, setgroups(2).
pub const NGROUPS_MAX: usize = 65_536;

/// The most instructions of a program, seccomp(2).
pub const BPF_MAXINSNS: usize = 4_096;

/// The most instructions of all programs of a process, with 4 for each but the first, seccomp(2).
pub const MAX_INSNS_PER_PATH: usize = 32_768;

/// The most mounts of a namespace in this model; proc_sys_fs(5) has mount-max.
pub const MOUNT_MAX: usize = 4_096;
