//! The facts of a service by which ways are found: its power over mount tables, and which calls pass.

ghost use Rattle.std.specs.Prelude.{◌≡◌};
ghost use Rattle.ceilings.specs.kernel_laws.Launched.{launch_of};
ghost use Rattle.ceilings.specs.Own.{IsCeilingOf};
ghost use Rattle.open_calls.specs.Bases.{IsBasis};

use ceilings::Ceiling;
use questions::{CallKind, Power, World};

/// The facts of a launched service that are known before any way is found.
#[derive(Clone, Copy)]
pub(crate) struct Basis {
    // its own power over mount tables, mount(2), umount2(2)
    pub(crate) power: Power,
    // whether capset(2) passes, some call that takes a uid, and some call that takes a gid
    pub(crate) sets_caps: bool,
    pub(crate) takes_uid: bool,
    pub(crate) takes_gid: bool,
}

impl Basis {
    /// Returns the basis of a launched service, by its own ceiling.
    pub(crate) fn of(world: &World<'_>, top: &Ceiling) -> Basis
        requires its_own { IsCeilingOf (launch_of world.now) top.now }
        ensures { IsBasis (launch_of world.now) result }
    {
        Basis {
            power: top.power,
            sets_caps: top.rules.let_through(world, CallKind::SetsCaps),
            takes_uid: top.rules.let_through(world, CallKind::TakesUid),
            takes_gid: top.rules.let_through(world, CallKind::TakesGid),
        }
    }
}
