//! Makes the ceiling of a launched service.

ghost use Rattle.std.specs.Prelude.{◌≡◌, ◌&&◌, IfOk};
ghost use Rattle.kernel_ways.specs.linux_numbers.Capabilities.{cap_sys_admin};
ghost use Rattle.kernel_ways.specs.cap_sets.Sets.{has};
ghost use Rattle.kernel_ways.specs.kernel_laws.Bound.{power_by};
ghost use Rattle.kernel_ways.specs.kernel_laws.declared.question_types.kind.CallKind.TheVariants.{ChangesMounts, RemovesMounts};
ghost use Rattle.kernel_ways.specs.kernel_laws.Launched.{IsLaunchedWorld, launch_of, lets};
ghost use Rattle.kernel_ways.specs.Laws.{IsServedWorld};
ghost use Rattle.ceilings.specs.Bounds.{DeniesMore, IsAllHad};
ghost use Rattle.ceilings.specs.Own.{IsCeilingOf};

use crate::bounds::Ceiling;
use crate::gains::caps_by;
use crate::ids::{gids, uids};
use crate::passing::{Passing, PathCalls};
use crate::powers::power_using;
use crate::ruled::LineRules;
use crate::searching::all_leads;
use kernel_model::CapSet;
use kernel_ways::Launched;
use kernel_ways::linux_numbers::capabilities::{CAP_SETGID, CAP_SETUID};
use std::alloc::{AllocError, Global};

// Returns whether every id can be taken, by a capability and a call that passes.
fn can_take_any(caps: CapSet, cap: u8, passes: bool) -> bool
    ensures { result ≡ (has caps cap && passes) }
{
    caps.contains(cap) && passes
}

/// Makes the bounds of every process of a launched service.
///
/// The service starts with the capabilities of its launch. Programs that it can execute give it more: by running as root, by an
/// effective bit, or with capset(2) after the program (capabilities(7)). With no_new_privs they give none, prctl(2). A program
/// counts if the service can make a mount table that leads to it.
///
/// CAP_SYS_ADMIN gives power over mount tables if the service can gain it on the launched table. With that power more programs
/// may count, but what they give adds no power.
///
/// The call takes a few passes over the site. It finds once what later calls need again and again of each line of the table and
/// of each row of the site.
pub fn ceiling(alloc: Global, launched: &Launched<'_>) -> Result<Ceiling, AllocError>
    requires { IsLaunchedWorld launched.now.world }
    ensures is_its_own { IfOk result (IsCeilingOf (launch_of launched.now.world)) }

    // CAP_SYS_ADMIN and the calls that pass give the power.
    ensures power_is_by_what_can_be_had { IfOk result (λ top. let launch = launch_of launched.now.world in
        top.power
        ≡ power_by (has top.effective cap_sys_admin) (lets launch ChangesMounts) (lets launch RemovesMounts)) }

    // No living process of any run has more. Some list of successful calls gains all of it.
    ensures more_is_denied { IfOk result (DeniesMore launched.now.world) }
    ensures all_is_had { IfOk result (λ top. IsServedWorld launched.now.world → IsAllHad launched.now.world top) }
{
    let world = &launched.world;
    let rules = LineRules::of(alloc, world)?;
    let passing = Passing::of(world, &rules);
    let power = power_using(world, passing, passing.takes_uid);
    let effective = caps_by(world, passing, passing.takes_uid, power);
    let spared = power_using(world, passing, false);
    Ok(Ceiling {
        effective,
        power,
        any_uid: can_take_any(effective, CAP_SETUID, passing.takes_uid),
        any_gid: can_take_any(effective, CAP_SETGID, passing.takes_gid),
        uids: uids(alloc, world, spared)?,
        gids: gids(alloc, world, power)?,
        paths: PathCalls::of(world, &rules),
        rules,
        leads: all_leads(alloc, world)?,
    })
}
