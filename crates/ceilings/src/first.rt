//! The one process of a launched world, and its mount table.

ghost use Rattle.std.specs.Prelude.{◌≡◌};
ghost use Rattle.kernel_ways.specs.kern_mounts.Mounts.{steps_of};
ghost use Rattle.kernel_ways.specs.kernel_laws.Launched.{IsLaunchedWorld, first_of, launch_of};

use kernel_model::{MountTable, Process, World};

/// The one process of a world that a launch left, which runs the service's program.
pub fn launched_process<'a>(world: &'a World<'_>) -> &'a Process
    requires { IsLaunchedWorld world.now }
    ensures first { result.now ≡ first_of world.now }
{
    match world.process(1) {
        Some(process) => process,
        None => unreachable!(),
    }
}

/// The mount table of that process, mount_namespaces(7).
pub fn launched_table<'a>(world: &'a World<'_>) -> &'a MountTable
    requires { IsLaunchedWorld world.now }
    ensures its_own { steps_of result.now ≡ (launch_of world.now).table }
{
    match world.table(launched_process(world).namespace) {
        Some(table) => table,
        None => unreachable!(),
    }
}
