//! States that the constants of the code are the numbers of the definitions. Each law is the contract of a function that does
//! nothing.

ghost use Rattle.std.specs.Prelude.{◌≡◌};
ghost use Rattle.linux_numbers.specs.Errnos.{eperm, enoent, esrch, eintr, eio, enxio, e2big, enoexec, ebadf, eagain, enomem, eacces, efault, ebusy, eexist, exdev, enodev, enotdir, eisdir, einval, enfile, emfile, enotty, efbig, enospc, erofs, epipe, erange, enametoolong, enosys, eopnotsupp, eafnosupport, etimedout, econnrefused};
ghost use Rattle.linux_numbers.specs.Capabilities.{cap_setgid, cap_setuid, cap_setpcap, cap_sys_module, cap_sys_rawio, cap_sys_admin, cap_sys_nice, cap_sys_time, cap_mknod, cap_syslog, cap_wake_alarm, cap_last_cap};
ghost use Rattle.linux_numbers.specs.Actions.{kill_process, kill_thread, trap, errno, user_notif, trace, log, allow, action_full, data_bits};
ghost use Rattle.linux_numbers.specs.Limits.{max_errno, no_id, ngroups_max, bpf_maxinsns, max_insns_per_path, mount_max};

use crate::actions::{
    ACTION_FULL, ALLOW, DATA, ERRNO, KILL_PROCESS, KILL_THREAD, LOG, TRACE, TRAP, USER_NOTIF,
};
use crate::capabilities::{
    CAP_LAST_CAP, CAP_MKNOD, CAP_SETGID, CAP_SETPCAP, CAP_SETUID, CAP_SYS_ADMIN, CAP_SYS_MODULE,
    CAP_SYS_NICE, CAP_SYS_RAWIO, CAP_SYS_TIME, CAP_SYSLOG, CAP_WAKE_ALARM,
};
use crate::errnos::{
    E2BIG, EACCES, EAFNOSUPPORT, EAGAIN, EBADF, EBUSY, ECONNREFUSED, EEXIST, EFAULT, EFBIG, EINTR,
    EINVAL, EIO, EISDIR, EMFILE, ENAMETOOLONG, ENFILE, ENODEV, ENOENT, ENOEXEC, ENOMEM, ENOSPC,
    ENOSYS, ENOTDIR, ENOTTY, ENXIO, EOPNOTSUPP, EPERM, EPIPE, ERANGE, EROFS, ESRCH, ETIMEDOUT,
    EXDEV,
};
use crate::limits::{BPF_MAXINSNS, MAX_ERRNO, MAX_INSNS_PER_PATH, MOUNT_MAX, NGROUPS_MAX, NO_ID};

/// The code and the definitions have the same error numbers.
pub fn error_numbers()
    ensures eperm { EPERM ≡ eperm }
    ensures enoent { ENOENT ≡ enoent }
    ensures esrch { ESRCH ≡ esrch }
    ensures eintr { EINTR ≡ eintr }
    ensures eio { EIO ≡ eio }
    ensures enxio { ENXIO ≡ enxio }
    ensures e2big { E2BIG ≡ e2big }
    ensures enoexec { ENOEXEC ≡ enoexec }
    ensures ebadf { EBADF ≡ ebadf }
    ensures eagain { EAGAIN ≡ eagain }
    ensures enomem { ENOMEM ≡ enomem }
    ensures eacces { EACCES ≡ eacces }
    ensures efault { EFAULT ≡ efault }
    ensures ebusy { EBUSY ≡ ebusy }
    ensures eexist { EEXIST ≡ eexist }
    ensures exdev { EXDEV ≡ exdev }
    ensures enodev { ENODEV ≡ enodev }
    ensures enotdir { ENOTDIR ≡ enotdir }
    ensures eisdir { EISDIR ≡ eisdir }
    ensures einval { EINVAL ≡ einval }
    ensures enfile { ENFILE ≡ enfile }
    ensures emfile { EMFILE ≡ emfile }
    ensures enotty { ENOTTY ≡ enotty }
    ensures efbig { EFBIG ≡ efbig }
    ensures enospc { ENOSPC ≡ enospc }
    ensures erofs { EROFS ≡ erofs }
    ensures epipe { EPIPE ≡ epipe }
    ensures erange { ERANGE ≡ erange }
    ensures enametoolong { ENAMETOOLONG ≡ enametoolong }
    ensures enosys { ENOSYS ≡ enosys }
    ensures eopnotsupp { EOPNOTSUPP ≡ eopnotsupp }
    ensures eafnosupport { EAFNOSUPPORT ≡ eafnosupport }
    ensures etimedout { ETIMEDOUT ≡ etimedout }
    ensures econnrefused { ECONNREFUSED ≡ econnrefused }
{}

/// The code and the definitions have the same capabilities.
pub fn capability_numbers()
    ensures cap_setgid { CAP_SETGID ≡ cap_setgid }
    ensures cap_setuid { CAP_SETUID ≡ cap_setuid }
    ensures cap_setpcap { CAP_SETPCAP ≡ cap_setpcap }
    ensures cap_sys_module { CAP_SYS_MODULE ≡ cap_sys_module }
    ensures cap_sys_rawio { CAP_SYS_RAWIO ≡ cap_sys_rawio }
    ensures cap_sys_admin { CAP_SYS_ADMIN ≡ cap_sys_admin }
    ensures cap_sys_nice { CAP_SYS_NICE ≡ cap_sys_nice }
    ensures cap_sys_time { CAP_SYS_TIME ≡ cap_sys_time }
    ensures cap_mknod { CAP_MKNOD ≡ cap_mknod }
    ensures cap_syslog { CAP_SYSLOG ≡ cap_syslog }
    ensures cap_wake_alarm { CAP_WAKE_ALARM ≡ cap_wake_alarm }
    ensures cap_last_cap { CAP_LAST_CAP ≡ cap_last_cap }
{}

/// The code and the definitions have the same actions of filters.
pub fn action_words()
    ensures kill_process { KILL_PROCESS ≡ kill_process }
    ensures kill_thread { KILL_THREAD ≡ kill_thread }
    ensures trap { TRAP ≡ trap }
    ensures errno { ERRNO ≡ errno }
    ensures user_notif { USER_NOTIF ≡ user_notif }
    ensures trace { TRACE ≡ trace }
    ensures log { LOG ≡ log }
    ensures allow { ALLOW ≡ allow }
    ensures action_full { ACTION_FULL ≡ action_full }
    ensures data_bits { DATA ≡ data_bits }
{}

/// The code and the definitions have the same limits.
pub fn limit_numbers()
    ensures max_errno { MAX_ERRNO ≡ max_errno }
    ensures no_id { NO_ID ≡ no_id }
    ensures ngroups_max { NGROUPS_MAX ≡ ngroups_max }
    ensures bpf_maxinsns { BPF_MAXINSNS ≡ bpf_maxinsns }
    ensures max_insns_per_path { MAX_INSNS_PER_PATH ≡ max_insns_per_path }
    ensures mount_max { MOUNT_MAX ≡ mount_max }
{}
