//! What is needed of a mount at which a file of the host is found.

ghost use Rattle.std.specs.Prelude.{◌≡◌};
ghost use Rattle.kernel_laws.specs.Reach.{fits, mount_wish};
ghost use Rattle.reach_paths.specs.Needs.{allows};

use kernel_laws::question_types::Wish;
use kernel_laws::{Flags, RowKind};

/// What is needed of the mount at which a row is found.
#[derive(Clone, Copy)]
pub enum Need {
    /// Flags that allow what is wished.
    ForWish(Wish),
    /// Programs can be executed, and execve(2) looks at their set-id bits and capabilities.
    Marked,
    /// Programs can be executed, and execve(2) does not look at these (mount(2), MS_NOSUID).
    Unmarked,
}

/// Returns what a wish for a row of this kind asks of its mount: writing a device asks no more than reading it, because a
/// read-only mount keeps no device (mount(2)).
pub fn mount_wish(kind: RowKind, wish: Wish) -> Wish
    ensures of_the_kind { result ≡ mount_wish kind wish }
{
    match (wish, kind) {
        (Wish::Write, RowKind::Dev) => Wish::Read,
        _ => wish,
    }
}

fn fits(flags: Flags, wish: Wish) -> bool
    ensures { result ≡ fits wish flags }
{
    match wish {
        Wish::See | Wish::Read => true,
        Wish::Write => !flags.read_only,
        Wish::Exec => !flags.no_exec,
    }
}

// Returns whether a mount with these flags is such, mount(2).
pub(crate) fn allows(flags: Flags, need: Need) -> bool
    ensures { result ≡ allows need flags }
{
    match need {
        Need::ForWish(wish) => fits(flags, wish),
        Need::Marked => !flags.no_exec && !flags.no_suid,
        Need::Unmarked => !flags.no_exec && flags.no_suid,
    }
}
