//! Memory that is to be executed, by a launched process.

ghost use Rattle.std.specs.Prelude.{◌≡◌};
ghost use Rattle.kernel_ways.specs.kernel_laws.Bound.{attaching};
ghost use Rattle.kernel_ways.specs.kernel_laws.Launched.{IsLaunchedWorld, launch_of};

use crate::first::launched_process;
use kernel_model::World;
use kernel_ways::CallKind;

/// Returns whether the launched process is refused memory that it can both write and execute, PR_SET_MDWE of prctl(2).
pub fn refuses_memory(world: &World<'_>) -> bool
    requires { IsLaunchedWorld world.now }
    ensures of_the_launch { result ≡ (launch_of world.now).creds.mdwe }
{
    launched_process(world).creds.mdwe()
}

/// Returns the kind of call that attaches shared memory to be executed, shmat(2). A process that is refused memory to be both written and
/// executed attaches it to read it only.
pub fn attaching(world: &World<'_>) -> CallKind
    requires { IsLaunchedWorld world.now }
    ensures of_the_launch { result ≡ attaching (launch_of world.now) }
{
    if refuses_memory(world) {
        CallKind::AttachesReadOnlyX
    } else {
        CallKind::AttachesX
    }
}
