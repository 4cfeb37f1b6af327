//! The mounts of a plan, in a namespace of their own (mount_namespaces(7)).

ghost use Rattle.std.specs.Prelude.{◌≡◌, ◌≤◌, codes, length, map, IfOk, OnOk};
ghost use Rattle.kernel_laws.specs.call_table.Facts.{IsWhole};
ghost use Rattle.kernel_laws.specs.kernel_model.declared.kernel_calls.payload.Payload.TheVariants.{Nothing};
ghost use Rattle.launcher.specs.Ends.{Begins, HasRoomFor, IsStart, StepsTo, with_mounts};
ghost use Rattle.launcher.specs.Launch.{Mounts, has_flags, makes, mount_steps, new_mounts, with_unshare};

use crate::calls::first_call;
use crate::error::LaunchError;
use crate::running::make_call;
use kernel_laws::{Flags, MountStep, Payload, World};
use std::alloc::{AllocError, Global};

/// CLONE_NEWNS, unshare(2).
const NEW_MOUNTS: u64 = 0x2_0000;

// Returns whether there is a flag.
fn has_flags(flags: Flags) -> bool
    ensures { result ≡ has_flags flags }
{
    flags.read_only || flags.no_exec || flags.no_suid
}

// The entries that are mounted: all but the first, and the first too where it has flags.
fn mounted(plan: &[MountStep]) -> &[MountStep]
    ensures steps { map Mounts result.now ≡ mount_steps plan.now }
    ensures few { length result.now ≤ length plan.now }
{
    match plan.split_first() {
        None => return plan,
        Some((first, rest)) => {
            if has_flags(first.flags) {
                return plan;
            }
            return rest;
        }
    }
}

// Gives process 1 a namespace of its own, which is the first step.
fn unshare(alloc: Global, world: &mut World) -> Result<(), LaunchError>
    ensures { StepsTo world.old (makes world.old.calls.calls (codes "unshare") new_mounts 0 0 Nothing) 1 result world.new }
{
    let table = world.call_table();
    let call = first_call(table, "unshare", NEW_MOUNTS, 0, 0, Payload::Nothing);
    make_call(alloc, world, &call, 1)
}

// Mounts the entries in their order.
fn mount_each(alloc: Global, world: &mut World, entries: &[MountStep]) -> Result<(), AllocError>
    requires { HasRoomFor (length entries.now) world.old }
    ensures { OnOk result (world.new ≡ with_mounts world.old entries.now) }
{
    for entry in entries {
        world.mount_step(alloc, 1, entry)?;
    }
    Ok(())
}

/// Makes the mount steps of a plan in the world that a kernel starts with, and counts them with unshare(2) before them.
pub fn mount_plan(alloc: Global, world: &mut World, plan: &[MountStep]) -> Result<u32, LaunchError>
    requires starts { IsStart world.old }
    requires has_the_calls { IsWhole world.old.calls }
    requires few { length plan.now ≤ 193 }
    ensures begins { Begins world.old (with_unshare world.old.calls.calls (mount_steps plan.now)) result world.new }
    ensures few_steps { IfOk result (λ count. count ≤ 194) }
{
    let entries = mounted(plan);
    if entries.is_empty() {
        return Ok(0);
    }
    unshare(alloc, world)?;
    mount_each(alloc, world, entries)?;
    Ok(1 + entries.len() as u32)
}
