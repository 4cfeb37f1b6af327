//! The capabilities that can become effective, capabilities(7).

ghost use Rattle.std.specs.Prelude.{◌≡◌, ◌&&◌};
ghost use Rattle.kernel_ways.specs.linux_numbers.Capabilities.{cap_setuid};
ghost use Rattle.kernel_ways.specs.cap_sets.Sets.{has, union};
ghost use Rattle.kernel_ways.specs.kernel_laws.Bound.{when, caps_before, file_gain, gain_at};
ghost use Rattle.kernel_ways.specs.kernel_laws.Launched.{IsLaunchedWorld, launch_of};
ghost use Rattle.ceilings.specs.Passing.{ArePassing};
ghost use Rattle.kernel_ways.specs.Spared.{caps_by};

use crate::first::launched_process;
use crate::passing::Passing;
use crate::programs::can_run;
use kernel_model::{CapSet, Row, World};
use kernel_ways::Power;
use kernel_ways::linux_numbers::capabilities::CAP_SETUID;

// Returns the capabilities that execve of a row, and capset after it, make effective. A program that runs as root has
// all of the bounding set. Any other has the file's capabilities that are in the bounding set, by its effective bit
// or by capset.
fn file_gain(world: &World<'_>, passing: Passing, row: &Row) -> CapSet
    requires launched { IsLaunchedWorld world.now }
    requires passing { ArePassing (launch_of world.now) passing }
    ensures { result ≡ file_gain (launch_of world.now) row.now }
{
    let bounding = launched_process(world).creds.bounding();
    if row.setuid == Some(0) {
        bounding
    } else if row.effective || passing.sets_caps {
        row.caps.cut(bounding)
    } else {
        CapSet::empty()
    }
}

// The same if the row can be run, else none. Most rows give nothing, and no entry is searched for them.
fn gain_at(world: &World<'_>, passing: Passing, power: Power, row: &Row) -> CapSet
    requires launched { IsLaunchedWorld world.now }
    requires passing { ArePassing (launch_of world.now) passing }
    ensures { result ≡ gain_at (launch_of world.now) power row.now }
{
    let gain = file_gain(world, passing, row);
    if gain.bits() != 0 && can_run(world, power, row) {
        gain
    } else {
        CapSet::empty()
    }
}

// The capabilities of the launch, and those that running rows gives.
fn caps_before(world: &World<'_>, passing: Passing, power: Power) -> CapSet
    requires launched { IsLaunchedWorld world.now }
    requires passing { ArePassing (launch_of world.now) passing }
    ensures { result ≡ caps_before (launch_of world.now) power }
{
    let rows = world.site_table().rows();
    let mut caps = launched_process(world).creds.effective();
    for row in rows {
        caps = caps.union(gain_at(world, passing, power, row));
    }
    caps
}

// Adds all of the bounding set if CAP_SETUID is among the capabilities and is used to take uid 0.
fn with_root(caps: CapSet, bounding: CapSet, takes_uid: bool) -> CapSet
    ensures { result ≡ union caps (when (has caps cap_setuid && takes_uid) bounding) }
{
    if caps.contains(CAP_SETUID) && takes_uid {
        caps.union(bounding)
    } else {
        caps.union(CapSet::empty())
    }
}

// The capabilities that can become effective at a power, where CAP_SETUID is used to take uid 0 or not. With no_new_privs none
// are added, prctl(2).
pub(crate) fn caps_by(world: &World<'_>, passing: Passing, takes_uid: bool, power: Power) -> CapSet
    requires launched { IsLaunchedWorld world.now }
    requires passing { ArePassing (launch_of world.now) passing }
    ensures { result ≡ caps_by (launch_of world.now) takes_uid power }
{
    let creds = &launched_process(world).creds;
    if creds.no_new_privs() {
        creds.effective()
    } else {
        let caps = caps_before(world, passing, power);
        with_root(caps, creds.bounding(), takes_uid)
    }
}
