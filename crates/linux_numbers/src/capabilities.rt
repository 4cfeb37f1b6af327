//! Capabilities that rules name, by their numbers (capabilities(7), <linux/capability.h>).

/// Allows taking any group ids and groups.
pub const CAP_SETGID: u8 = 6;

/// Allows taking any user ids.
pub const CAP_SETUID: u8 = 7;

/// Allows dropping capabilities from the bounding set, and making any of its capabilities inheritable.
pub const CAP_SETPCAP: u8 = 8;

/// Allows loading and unloading kernel modules.
pub const CAP_SYS_MODULE: u8 = 16;

/// Allows raw input and output.
pub const CAP_SYS_RAWIO: u8 = 17;

/// Allows mounting, installing filters, making namespaces, and more.
pub const CAP_SYS_ADMIN: u8 = 21;

/// Allows taking a realtime policy, and more.
pub const CAP_SYS_NICE: u8 = 23;

/// Allows setting the clock.
pub const CAP_SYS_TIME: u8 = 25;

/// Allows making device files.
pub const CAP_MKNOD: u8 = 27;

/// Allows using syslog(2).
pub const CAP_SYSLOG: u8 = 34;

/// Allows waking the system by a timer.
pub const CAP_WAKE_ALARM: u8 = 35;

/// The greatest capability.
pub const CAP_LAST_CAP: u8 = 40;
