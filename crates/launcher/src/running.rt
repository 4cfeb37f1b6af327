//! Makes the calls of a launch in turn, up to the first that is not done.

ghost use Rattle.std.specs.Prelude.{◌+◌, ◌<◌, ◌^◌, map, length};
ghost use Rattle.launcher.specs.Ends.{Ends, StepsTo, RepliesTo};
ghost use Rattle.launcher.specs.Launch.{Makes, launch_from};

use crate::error::LaunchError;
use kernel_laws::{Call, Reply, World};
use std::alloc::Global;

// Turns the reply to the step of this number into an answer.
fn done(reply: Reply, step: u32) -> Result<(), LaunchError>
    ensures { RepliesTo reply step result }
{
    match reply {
        Reply::Done(_) => return Ok(()),
        Reply::Refused(errno) => return Err(LaunchError::Refused { step, errno }),
        Reply::Killed => return Err(LaunchError::Killed { step }),
    }
}

/// Makes a call, which is the step of this number.
pub fn make_call(
    alloc: Global,
    world: &mut World,
    call: &Call,
    step: u32,
) -> Result<(), LaunchError>
    ensures makes_the_step { StepsTo world.old (Makes call.now) step result world.new }
{
    let reply = world.step(alloc, call)?;
    done(reply, step)
}

/// Makes the calls in sequence, and returns the number of steps: `before` counts the earlier ones.
pub fn make_calls(
    alloc: Global,
    world: &mut World,
    calls: &[Call],
    before: u32,
) -> Result<u32, LaunchError>
    requires few { before + length calls.now < 2 ^ 32 }
    ensures ends_as_its_steps_do { Ends (launch_from world.old (map Makes calls.now) before) result world.new }
{
    let mut steps = before;
    for call in calls {
        steps += 1;
        make_call(alloc, world, call, steps)?;
    }
    Ok(steps)
}
