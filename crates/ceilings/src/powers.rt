//! Computes how far a service can change its mount tables.

ghost use Rattle.std.specs.Prelude.{◌≡◌};
ghost use Rattle.kernel_ways.specs.kernel_laws.Bound.{power_by};
ghost use Rattle.kernel_ways.specs.kernel_laws.Launched.{IsLaunchedWorld, launch_of};
ghost use Rattle.ceilings.specs.Passing.{ArePassing};
ghost use Rattle.kernel_ways.specs.Spared.{power_using};

use crate::gains::caps_by;
use crate::passing::Passing;
use kernel_model::World;
use kernel_ways::Power;
use kernel_ways::linux_numbers::capabilities::CAP_SYS_ADMIN;

// Returns the power over mount tables. The arguments say whether the service can gain CAP_SYS_ADMIN on the launched table, and
// whether mount(2) and umount2(2) pass.
fn power_by(has_admin: bool, mounts: bool, unmounts: bool) -> Power
    ensures { result ≡ power_by has_admin mounts unmounts }
{
    match (has_admin, mounts, unmounts) {
        (true, true, _) => Power::Mount,
        (true, false, true) => Power::Unmount,
        _ => Power::None,
    }
}

// The power over mount tables, where CAP_SETUID is used to take uid 0 or not, mount(2), umount2(2).
pub(crate) fn power_using(world: &World<'_>, passing: Passing, takes_uid: bool) -> Power
    requires launched { IsLaunchedWorld world.now }
    requires passing { ArePassing (launch_of world.now) passing }
    ensures { result ≡ power_using (launch_of world.now) takes_uid }
{
    let caps = caps_by(world, passing, takes_uid, Power::None);
    power_by(
        caps.contains(CAP_SYS_ADMIN),
        passing.mounts,
        passing.unmounts,
    )
}
