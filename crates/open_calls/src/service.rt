//! For whom calls are made: a launched service, with what is found once for all of its questions.

ghost use Rattle.std.specs.Prelude.{◌≡◌, IfOk};
ghost use Rattle.std.proofs.Props.{props};
ghost use Rattle.ceilings.specs.cap_sets.Sets.{has};
ghost use Rattle.ceilings.specs.linux_numbers.Capabilities.{cap_sys_admin};
ghost use Rattle.ceilings.specs.kernel_laws.Bound.{ceiling, power_of};
ghost use Rattle.ceilings.specs.kernel_laws.Launched.{IsLaunchedWorld, launch_of};
ghost use Rattle.ceilings.specs.Own.{IsCeilingOf};
ghost use Rattle.open_calls.specs.Bases.{IsBasis};
ghost use Rattle.open_calls.specs.Firsts.{AreFirsts, AreGained};

use crate::basis::Basis;
use crate::firsts::Firsts;
use crate::gains::{Gained, gains};
use abs_path::AbsPath;
use ceilings::{CAP_SYS_ADMIN, Ceiling, Launched};
use questions::{Power, World};
use std::alloc::{AllocError, Global};

/// A launched service, for which calls are made. The ways that gain capabilities and the first calls of the kinds that are asked for
/// often are found once, whatever is asked.
#[derive(Drop)]
pub struct Service<'a> {
    /// Where its calls take memory.
    pub(crate) alloc: Global,
    /// The world that its launch left.
    pub world: &'a World<'a>,
    /// The program that it runs.
    pub program: &'a AbsPath,
    /// Its own ceiling, with what is kept of each line of the table of calls and of each row of the site.
    pub(crate) top: &'a Ceiling,
    /// Its own power over mount tables, mount(2), umount2(2).
    pub(crate) power: Power,
    /// Whether it can have CAP_SYS_ADMIN in the first user namespace.
    pub(crate) admin: bool,
    /// What its ways are found by.
    pub(crate) basis: Basis,
    /// The first calls of some kinds.
    pub(crate) firsts: Firsts,
    /// How each capability that it can have is gained, by its number.
    pub(crate) gains: Vec<Gained<'a>>,
    ghost its_ceiling: { IsCeilingOf (launch_of world.now) top.now },
    ghost its_basis: { IsBasis (launch_of world.now) basis },
    ghost its_own: { power ≡ power_of (launch_of world.now) },
    ghost its_top: { admin ≡ has (ceiling (launch_of world.now)).effective cap_sys_admin },
    ghost its_firsts: { AreFirsts (launch_of world.now) firsts } by { Prim.hlevel props },
    ghost its_gains: { AreGained (launch_of world.now) gains.items },
}

impl<'a> Service<'a> {
    /// Makes the service from its launch and its own ceiling. The function looks at the rows of the site once for each
    /// capability that the service can gain.
    pub fn of(
        alloc: Global,
        launched: &'a Launched<'a>,
        ceiling: &'a Ceiling,
    ) -> Result<Service<'a>, AllocError>
        requires launched { IsLaunchedWorld launched.now.world }
        requires its_own_ceiling { IsCeilingOf (launch_of launched.now.world) ceiling.now }
        ensures of_the_launch { IfOk result (λ service. (service.world.now ≡ launched.now.world) × (service.program.now ≡ launched.now.program)) }
    {
        let world = &launched.world;
        let basis = Basis::of(world, ceiling);
        let firsts = Firsts::of(world, ceiling, basis);
        let gains = gains(alloc, world, basis, ceiling.effective)?;
        Ok(Service {
            alloc,
            world,
            program: &launched.program,
            top: ceiling,
            power: ceiling.power,
            admin: ceiling.effective.contains(CAP_SYS_ADMIN),
            basis,
            firsts,
            gains,
        })
    }
}

/// What takes memory, and may run out of it.
pub(crate) type Made<T> = Result<T, AllocError>;
