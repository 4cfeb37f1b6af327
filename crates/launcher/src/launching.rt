//! The launch of a service.

ghost use Rattle.std.specs.Prelude.{◌+◌, ◌≤◌, ◌++◌, length, IfOk};
ghost use Rattle.kernel_laws.specs.call_table.Facts.{IsWhole};
ghost use Rattle.kernel_laws.specs.kern_mounts.Launch.{CanBeMounted};
ghost use Rattle.mount_plan.specs.Host.{host_of};
ghost use Rattle.exec_settings.specs.dropin_merge.declared.resolved.Resolved.{Resolved};
ghost use Rattle.exec_settings.specs.AreSettings.{AreSettings};
ghost use Rattle.kernel_laws.specs.Launched.{IsLaunchedWorld};
ghost use Rattle.launcher.specs.Answers.{EndsAs, LeavesService};
ghost use Rattle.launcher.specs.Conditions.{CanBeLaunched};
ghost use Rattle.launcher.specs.Ends.{Ends, IsStart};
ghost use Rattle.launcher.specs.Launch.{launch_from, mount_steps, with_unshare};

use crate::calls::CallSteps;
use crate::error::LaunchError;
use crate::filters::compile_all;
use crate::launched::Launched;
use crate::mounting::mount_plan;
use crate::privileged::is_privileged;
use crate::running::make_calls;
use crate::steps::call_steps;
use exec_settings::{Settings, SiteTable};
use kernel_laws::{CallTable, MountStep, World};
use std::alloc::Global;

// Makes the steps of a launch in the world that a kernel starts with, and counts them.
fn make_steps(
    alloc: Global,
    world: &mut World,
    plan: &[MountStep],
    calls: &CallSteps,
) -> Result<u32, LaunchError>
    requires starts { IsStart world.old }
    requires has_the_calls { IsWhole world.old.calls }
    requires few_mounts { length plan.now ≤ 193 }
    requires few_calls { length calls.now ≤ 40000 }
    ensures { Ends (launch_from world.old (with_unshare world.old.calls.calls (mount_steps plan.now) ++ calls.now) 0) result world.new }
{
    let mounted = mount_plan(alloc, world, plan)?;
    make_calls(alloc, world, calls.list(), mounted)
}

/// Starts a service in the modelled kernel, step by step (systemd.exec(5)). It makes the mounts in a namespace of their own,
/// and sets the groups, the uids, the capabilities and no_new_privs. Then it installs the filters as programs, gives up the
/// capabilities that it kept for this, and executes the service's program.
///
/// The kernel's step makes each call, with the table's number. `PrivilegedProgram` is returned before all steps, exactly if the
/// program's path finds an executable file with a set-id bit or capabilities on the plan. `Refused` and `Killed` name the first
/// step that fails, whatever programs match the filters. `Memory` is possible for any settings.
pub fn launch<'a>(
    alloc: Global,
    settings: &Settings,
    plan: &[MountStep],
    calls: &'a CallTable,
    site: &'a SiteTable,
) -> Result<Launched<'a>, LaunchError>
    // Each answer of `plan` on short mentions can be mounted, and each answer of `settings` can be launched.
    requires plan { CanBeMounted (host_of site.now) plan.now }
    requires settings { CanBeLaunched settings.now }
    ensures ends_as_its_steps_do { EndsAs calls.now site.now settings.now plan.now result }
    ensures leaves_one_process { IfOk result (LeavesService calls.now site.now settings.now plan.now) }

    // With the settings of a unit the service can be judged.
    ensures is_a_launched_world { (unit : Resolved) → AreSettings unit calls.now site.now settings.now
        → IfOk result (λ launched. IsLaunchedWorld launched.world) }
{
    calls.look_at();
    if is_privileged(plan, site, &settings.program) {
        return Err(LaunchError::PrivilegedProgram(settings.program.copy(alloc)?));
    }
    let filters = compile_all(alloc, &settings.filters)?;
    let list = call_steps(alloc, calls, settings, &filters)?;
    let mut world = World::start(alloc, calls, site)?;
    let steps = make_steps(alloc, &mut world, plan, &list)?;
    Ok(Launched {
        world,
        program: settings.program.copy(alloc)?,
        filters,
        steps,
    })
}
