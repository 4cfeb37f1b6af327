//! Launches a unit on a site and makes its calls.
ghost use Rattle.std.specs.Prelude.{◌≡◌, None, Ok};
ghost use Rattle.asked_service.specs.exec_settings.AreSettings.{AreSettings};
ghost use Rattle.asked_service.specs.exec_settings.Refusals.{refusal_of};
ghost use Rattle.asked_service.specs.kern_mounts.Launch.{CanBeMounted};
ghost use Rattle.asked_service.specs.mount_plan.Answers.{Plans};
ghost use Rattle.asked_service.specs.mount_plan.Host.{host_of};
ghost use Rattle.asked_service.specs.launching.Launched.{IsLaunched};

use crate::alike::asked::Asked;
use crate::alike::elsewhere::is_blind_there;
use asked_service::launching::launch_planned;
use asked_service::{Call, Launched, MountStep, Refusal, Reply, Settings, World, plan, settings};
use row_tools::said;
use std::alloc::{AllocError, Global};

/// The result of a unit on a site, as text, and whether the launched service is blind to the folder of the question.
#[derive(Drop)]
pub struct Trace {
    /// Why there is no service, or in how many steps it is launched.
    pub launch: String,
    pub is_blind: bool,
    pub replies: String,
}

impl Trace {
    /// Returns whether the service is blind, in a word.
    pub fn sight(&self) -> &'static str {
        if self.is_blind { "blind" } else { "sees" }
    }
}

// A trace that has no replies, since there is no service for this reason.
fn stopped(alloc: Global, reason: Result<String, AllocError>) -> Result<Trace, AllocError> {
    Ok(Trace {
        launch: reason?,
        is_blind: false,
        replies: String::new(alloc),
    })
}

/// Launches the unit on the site, and makes the calls.
pub fn trace_of(alloc: Global, asked: &Asked<'_>) -> Result<Trace, AllocError> {
    match &settings(alloc, asked.unit, asked.calls, asked.site) {
        Ok(settings) => planned(alloc, asked, settings),
        Err(error) => stopped(alloc, error.to_string(alloc)),
    }
}

fn planned(alloc: Global, asked: &Asked<'_>, settings: &Settings) -> Result<Trace, AllocError>
    requires accepted { refusal_of asked.now.unit.now asked.now.calls.now asked.now.site.now ≡ None }
    requires settings { AreSettings asked.now.unit.now asked.now.calls.now asked.now.site.now settings.now }
{
    match &plan(alloc, &settings.mentions, asked.site) {
        Ok(steps) => launched(alloc, asked, settings, steps.list()),
        Err(error) => stopped(alloc, error.to_string(alloc)),
    }
}

fn launched(
    alloc: Global,
    asked: &Asked<'_>,
    settings: &Settings,
    plan: &[MountStep],
) -> Result<Trace, AllocError>
    requires accepted { refusal_of asked.now.unit.now asked.now.calls.now asked.now.site.now ≡ None }
    requires settings { AreSettings asked.now.unit.now asked.now.calls.now asked.now.site.now settings.now }
    requires plan { Plans (host_of asked.now.site.now) settings.now.mentions (Ok plan.now) }
    requires mounts { CanBeMounted (host_of asked.now.site.now) plan.now }
{
    match &mut launch_planned(alloc, settings, plan, asked.calls, asked.site) {
        Ok(service) => told(alloc, asked, settings, plan, service),
        Err(Refusal::Memory) => Err(AllocError),
        Err(_) => stopped(alloc, said(alloc, "refused")),
    }
}

fn told(
    alloc: Global,
    asked: &Asked<'_>,
    settings: &Settings,
    plan: &[MountStep],
    service: &mut Launched<'_>,
) -> Result<Trace, AllocError>
    requires accepted { refusal_of asked.now.unit.now asked.now.calls.now asked.now.site.now ≡ None }
    requires settings { AreSettings asked.now.unit.now asked.now.calls.now asked.now.site.now settings.now }
    requires plan { Plans (host_of asked.now.site.now) settings.now.mentions (Ok plan.now) }
    requires mounts { CanBeMounted (host_of asked.now.site.now) plan.now }
    requires launched { IsLaunched asked.now.calls.now asked.now.site.now settings.now plan.now service.old }
{
    let is_blind = is_blind_there(alloc, asked, settings, plan, service)?;
    let replies = replies(alloc, &mut service.world, asked.script)?;
    Ok(Trace {
        launch: format!(in alloc; "launched {}", service.steps)?,
        is_blind,
        replies,
    })
}

// The replies to calls that are made one after the other, with commas between them.
fn replies(alloc: Global, world: &mut World, script: &[Call]) -> Result<String, AllocError> {
    let mut text = String::new(alloc);
    for call in script {
        if !text.is_empty() {
            text.push_str(", ")?;
        }
        push_reply(alloc, &mut text, world.step(alloc, call)?)?;
    }
    Ok(text)
}

fn push_reply(alloc: Global, text: &mut String, reply: Reply) -> Result<(), AllocError> {
    match reply {
        Reply::Done(value) => text.push_str(format!(in alloc; "ok {value}")?.as_str()),
        Reply::Refused(errno) => text.push_str(format!(in alloc; "errno {errno}")?.as_str()),
        Reply::Killed => text.push_str("killed"),
    }
}
