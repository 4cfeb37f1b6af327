//! Kinds of calls that the filters of a launched service let through.

ghost use Rattle.std.specs.Prelude.{◌≡◌};
ghost use Rattle.kernel_ways.specs.kernel_laws.Launched.{launch_of};
ghost use Rattle.ceilings.specs.Passing.{ArePassing, ArePathCalls, asks_for, passes};
ghost use Rattle.ceilings.specs.Ruled.{AreRules};

use crate::ruled::{LineRules, can_submit};
use kernel_model::World;
use kernel_ways::{CallKind, Wish};

/// Whether some call passes that sees, reads, writes or executes a path, and whether a ring does so.
#[derive(Clone, Copy)]
pub struct PathCalls {
    /// stat(2) and similar calls.
    pub see: bool,
    /// open(2) for reading.
    pub read: bool,
    /// open(2) for writing, creat(2), truncate(2).
    pub write: bool,
    /// execve(2).
    pub exec: bool,
    /// Requests to a ring, io_uring_enter(2).
    pub submit: bool,
}

impl PathCalls {
    /// Finds the calls on paths that the filters of the first process let through.
    pub(crate) fn of(world: &World<'_>, rules: &LineRules) -> PathCalls
        requires { AreRules (launch_of world.now) rules.now }
        ensures { ArePathCalls (launch_of world.now) result }
    {
        PathCalls {
            see: rules.let_through(world, CallKind::ForPath(Wish::See)),
            read: rules.let_through(world, CallKind::ForPath(Wish::Read)),
            write: rules.let_through(world, CallKind::ForPath(Wish::Write)),
            exec: rules.let_through(world, CallKind::ForPath(Wish::Exec)),
            submit: can_submit(world, rules),
        }
    }

    /// Returns whether some call passes that does this.
    pub fn passes(self, wish: Wish) -> bool
        ensures of_the_wish { result ≡ passes self wish }
    {
        match wish {
            Wish::See => self.see,
            Wish::Read => self.read,
            Wish::Write => self.write,
            Wish::Exec => self.exec,
        }
    }

    /// Returns whether some call passes that does this, or a request to a ring can be submitted that does it. No request
    /// executes a file.
    pub fn can_ask(self, wish: Wish) -> bool
        ensures by_a_call_or_a_ring { result ≡ asks_for self wish }
    {
        match wish {
            Wish::Exec => self.exec,
            Wish::See | Wish::Read | Wish::Write => self.passes(wish) || self.submit,
        }
    }
}

// Whether calls pass that change what processes have.
#[derive(Clone, Copy)]
pub(crate) struct Passing {
    // mount(2)
    pub(crate) mounts: bool,
    // umount2(2)
    pub(crate) unmounts: bool,
    // capset(2)
    pub(crate) sets_caps: bool,
    // setuid(2), setresuid(2)
    pub(crate) takes_uid: bool,
    // setgid(2), setresgid(2), setgroups(2)
    pub(crate) takes_gid: bool,
}

impl Passing {
    // Finds the kinds of calls that the filters of the first process let through.
    pub(crate) fn of(world: &World<'_>, rules: &LineRules) -> Passing
        requires { AreRules (launch_of world.now) rules.now }
        ensures { ArePassing (launch_of world.now) result }
    {
        Passing {
            mounts: rules.let_through(world, CallKind::ChangesMounts),
            unmounts: rules.let_through(world, CallKind::RemovesMounts),
            sets_caps: rules.let_through(world, CallKind::SetsCaps),
            takes_uid: rules.let_through(world, CallKind::TakesUid),
            takes_gid: rules.let_through(world, CallKind::TakesGid),
        }
    }
}
