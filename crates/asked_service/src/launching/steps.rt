//! The steps of a launch: the settings of a unit, the plan of its mounts, and the calls of its launch.

ghost use Rattle.std.specs.Prelude.{◌≡◌, None, IsTrue};
ghost use Rattle.judge.specs.dropin_merge.declared.resolved.Resolved.{Resolved};
ghost use Rattle.judge.specs.exec_settings.AreSettings.{AreSettings};
ghost use Rattle.judge.specs.exec_settings.Refusals.{refusal_of};
ghost use Rattle.judge.specs.kern_mounts.Launch.{CanBeMounted};
ghost use Rattle.judge.specs.mount_plan.Host.{host_of};
ghost use Rattle.judge.specs.path_settings.Mentioned.{leaves_the_root, AreShort};
ghost use Rattle.asked_service.specs.launching.Launched.{Launches, LaunchesBy, LaunchesPlanned, LaysOut};
ghost use Rattle.asked_service.specs.launching.Settled.{IsSettled, LaunchesSettled};

use crate::launching::refusal::Refusal;
use judge::{
    LaunchError, Launched, Mentioned, MountStep, MountSteps, PlanError, Settings, SettingsError,
    launch, plan, settings,
};
use plan_command::SettledUnit;
use report_text::{CallTable, Resolved, SiteTable};
use std::alloc::Global;

// The mounts for these mentions.
fn lay_out(alloc: Global, mentions: &Mentioned, site: &SiteTable) -> Result<MountSteps, Refusal>
    requires root_is_the_hosts { IsTrue (leaves_the_root mentions.now) }
    requires paths_are_short { AreShort mentions.now }
    ensures { LaysOut (host_of site.now) mentions.now result }
{
    match plan(alloc, mentions, site) {
        Ok(steps) => Ok(steps),
        Err(PlanError::Missing(path)) => Err(Refusal::Plan(PlanError::Missing(path))),
        Err(PlanError::Kind(path)) => Err(Refusal::Plan(PlanError::Kind(path))),
        Err(PlanError::Memory) => Err(Refusal::Memory),
    }
}

/// Launches a unit with these settings and this plan of its mounts, over the table of calls and the site that they are by.
/// Only the launch may be refused.
pub fn launch_planned<'a>(
    alloc: Global,
    settings: &Settings,
    plan: &[MountStep],
    calls: &'a CallTable,
    site: &'a SiteTable,
) -> Result<Launched<'a>, Refusal>
    requires plan { CanBeMounted (host_of site.now) plan.now }
    requires settings { (unit : Resolved) × AreSettings unit calls.now site.now settings.now }
    ensures launches { LaunchesPlanned calls.now site.now settings.now plan.now result }
{
    // The calls that lend parts of a site or a path say what holds of each.
    let _uid = site.dynamic_uid();
    let _program = settings.program.text();
    calls.look_at();
    match launch(alloc, settings, plan, calls, site) {
        Ok(service) => Ok(service),
        Err(LaunchError::PrivilegedProgram(program)) => {
            Err(Refusal::Launch(LaunchError::PrivilegedProgram(program)))
        }
        Err(LaunchError::Refused { step, errno }) => {
            Err(Refusal::Launch(LaunchError::Refused { step, errno }))
        }
        Err(LaunchError::Killed { step }) => Err(Refusal::Launch(LaunchError::Killed { step })),
        Err(LaunchError::Memory) => Err(Refusal::Memory),
    }
}

// Launches a unit with these settings, over the table of calls and the site that they are by.
fn launch_with<'a>(
    alloc: Global,
    settings: &Settings,
    calls: &'a CallTable,
    site: &'a SiteTable,
) -> Result<Launched<'a>, Refusal>
    requires settings { (unit : Resolved) × AreSettings unit calls.now site.now settings.now }
    ensures { (unit : Resolved) → refusal_of unit calls.now site.now ≡ None
        → AreSettings unit calls.now site.now settings.now → LaunchesBy unit calls.now site.now settings.now result }
{
    let steps = lay_out(alloc, &settings.mentions, site)?;
    launch_planned(alloc, settings, steps.list(), calls, site)
}

/// Launches a unit that has its settings, by these. The plan of its mounts or the launch may be refused.
pub fn launch_settled(alloc: Global, one: &SettledUnit) -> Result<Launched<'_>, Refusal>
    requires settled { IsSettled one.now }
    ensures launches { LaunchesSettled one.now result }
{
    let inputs = &one.inputs;
    launch_with(alloc, &one.settings, &inputs.calls, &inputs.site)
}

/// Launches a unit. Its settings, the plan of its mounts or the launch may be refused; the first refusal is returned.
pub fn launch_unit<'a>(
    alloc: Global,
    unit: &Resolved,
    calls: &'a CallTable,
    site: &'a SiteTable,
) -> Result<Launched<'a>, Refusal>
    ensures launches { Launches unit.now calls.now site.now result }
{
    match settings(alloc, unit, calls, site) {
        Ok(made) => launch_with(alloc, &made, calls, site),
        Err(SettingsError::Memory) => Err(Refusal::Memory),
        Err(error) => Err(Refusal::Settings(error)),
    }
}
