//! The names of the calls of a kind, in the order in which they are tried.

ghost use Rattle.std.specs.Prelude.{◌≡◌, map};
ghost use Rattle.open_calls.specs.chosen_calls.First.{names_of};

use questions::{CallKind, Wish};

// Those that do what is wished of a path.
fn path_names(wish: Wish) -> &'static [&'static str]
    ensures { map (λ name. name.now) result.now ≡ names_of (CallKind.ForPath wish) }
{
    match wish {
        Wish::See => &[
            "stat",
            "lstat",
            "newfstatat",
            "statx",
            "access",
            "faccessat",
            "faccessat2",
        ],
        Wish::Read => &["open", "openat"],
        Wish::Write => &["open", "openat", "creat", "truncate"],
        Wish::Exec => &["execve"],
    }
}

/// Returns the names of the calls of a kind, in the order in which they are tried. Plain calls have no names here.
pub(crate) fn names_of(kind: CallKind) -> &'static [&'static str]
    ensures { map (λ name. name.now) result.now ≡ names_of kind }
{
    match kind {
        CallKind::ForPath(wish) => path_names(wish),
        CallKind::PlainCall => &[],
        CallKind::ForFamily(_) => &["socket"],
        CallKind::ForNamespace(_) => &["unshare", "clone"],
        CallKind::MapsWx => &["mmap"],
        CallKind::ProtectsX => &["mprotect", "pkey_mprotect"],
        CallKind::AttachesX | CallKind::AttachesReadOnlyX => &["shmat"],
        CallKind::SchedulesRealtime => &["sched_setscheduler"],
        CallKind::SetsRealtime => &["sched_setattr"],
        CallKind::TakesPersonality => &["personality"],
        CallKind::SetsMode => &[
            "chmod", "fchmod", "fchmodat", "mkdir", "mkdirat", "mknod", "mknodat",
        ],
        CallKind::OpensMode => &["open", "openat"],
        CallKind::CreatesMode => &["creat"],
        CallKind::ChangesMounts => &["mount"],
        CallKind::RemovesMounts => &["umount2"],
        CallKind::SetsCaps => &["capset"],
        CallKind::TakesUid => &["setuid", "setresuid"],
        CallKind::TakesGid => &["setgid", "setresgid", "setgroups"],
        CallKind::SetsUpRing => &["io_uring_setup"],
        CallKind::Submits => &["io_uring_enter"],
    }
}
