//! How the capabilities are gained that a service can have, each found once.

ghost use Rattle.std.specs.Prelude.{◌≡◌, option_map, IfOk};
ghost use Rattle.open_calls.specs.chosen_calls.Gaining.{at_once, gain};
ghost use Rattle.ceilings.specs.kernel_laws.Launched.{IsLaunchedWorld, Launch, launch_of};
ghost use Rattle.open_calls.specs.Bases.{IsBasis};
ghost use Rattle.open_calls.specs.Firsts.{AreGained, IsGained};
ghost use Rattle.open_calls.specs.Meanings.{meant_cap, meant_gain};

use crate::basis::Basis;
use crate::service::Service;
use crate::ways::{CapWay, GainWay, gain};
use ceilings::{CAP_LAST_CAP, CapSet};
use questions::World;
use std::alloc::{AllocError, Global};

/// What is kept of a capability.
#[derive(Clone, Copy)]
pub(crate) enum Gained<'a> {
    /// Nothing: the service cannot gain it.
    Unasked,
    /// How it is gained, if it is.
    Found(Option<GainWay<'a>>),
}

// Returns what is kept for this capability. `held` has the capabilities that the service can gain.
fn found_way<'a>(world: &'a World<'_>, basis: Basis, held: CapSet, cap: u8) -> Gained<'a>
    requires launched { IsLaunchedWorld world.now }
    requires its_own { IsBasis (launch_of world.now) basis }
    ensures { IsGained (launch_of world.now) cap result }
{
    if held.contains(cap) {
        Gained::Found(gain(world, basis, cap))
    } else {
        Gained::Unasked
    }
}

/// Returns what is kept for each capability, by its number. `held` has the capabilities that the service can gain.
pub(crate) fn gains<'a>(
    alloc: Global,
    world: &'a World<'_>,
    basis: Basis,
    held: CapSet,
) -> Result<Vec<Gained<'a>>, AllocError>
    requires launched { IsLaunchedWorld world.now }
    requires its_own { IsBasis (launch_of world.now) basis }
    ensures { IfOk result (λ list. AreGained (launch_of world.now) list.items) }
{
    let mut list = Vec::new(alloc);
    for cap in 0..CAP_LAST_CAP + 1 {
        list.push(found_way(world, basis, held, cap))?;
    }
    Ok(list)
}

// Returns what is kept of the capability of this number.
#[tactic(auto, using(crate::proofs::Keeping::kept_there))]
fn kept<'a>(gains: &[Gained<'a>], cap: u8) -> Gained<'a>
    ensures { (launch : Launch) → AreGained launch gains.now → IsGained launch cap result }
{
    match gains.get(usize::from(cap)) {
        Some(gained) => *gained,
        None => Gained::Unasked,
    }
}

impl<'a> Service<'a> {
    /// Returns how the capability is gained, if it is.
    pub(crate) fn gain(&self, cap: u8) -> Option<GainWay<'a>>
        requires { IsLaunchedWorld self.now.world.now }
        ensures { option_map meant_gain result ≡ gain (launch_of self.now.world.now) cap }
    {
        match kept(&self.gains, cap) {
            Gained::Found(way) => way,
            Gained::Unasked => gain(self.world, self.basis, cap),
        }
    }

    /// Returns how it is gained on the launched table, if it is.
    #[tactic(auto, using(crate::proofs::Keeping::once_at_once, crate::proofs::Keeping::once_behind, crate::proofs::Keeping::once_none))]
    pub(crate) fn at_once(&self, cap: u8) -> Option<CapWay<'a>>
        requires { IsLaunchedWorld self.now.world.now }
        ensures { option_map meant_cap result ≡ at_once (launch_of self.now.world.now) cap }
    {
        match self.gain(cap) {
            Some(GainWay::AtOnce(own)) => Some(own),
            Some(GainWay::Behind(_, _)) => None,
            None => None,
        }
    }
}
