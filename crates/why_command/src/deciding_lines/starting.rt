//! A unit that starts without some of its lines.
ghost use Rattle.std.specs.Prelude.{◌≢◌, IfOk};
ghost use Rattle.asked_service.specs.declared.launching.refusal.Refusal.TheVariants.{Memory};
ghost use Rattle.asked_service.specs.launching.Refusals.{refusal_line};
ghost use Rattle.asked_service.specs.launching.Starting.{given};
ghost use Rattle.why_command.specs.deciding_lines.Tried.{IsRefusedWith, IsStarted, inputs_without};

use crate::deciding_lines::unit_lines::without;
use asked_service::launching::refusal_line;
use asked_service::{CallTable, Launched, Place, Refusal, Resolved, SiteTable, launch_unit};
use std::alloc::{AllocError, Global};

/// What a unit starts as.
#[derive(Drop)]
pub enum Started<'a> {
    /// This service.
    Launched(Launched<'a>),
    /// Nothing: it has no settings, no plan of mounts or no launch, for which this is the line.
    Refused(Vec<u8>),
}

// The line of a refusal, unless memory ran out.
fn refused<'a>(alloc: Global, name: &str, refusal: &Refusal) -> Result<Started<'a>, AllocError>
    ensures { IfOk result (λ started. (refusal.now ≢ Memory) × IsRefusedWith (refusal_line name.now refusal.now) started) }
{
    match refusal {
        Refusal::Memory => Err(AllocError),
        _ => Ok(Started::Refused(refusal_line(alloc, name, refusal)?)),
    }
}

// Starts a unit.
fn start<'a>(
    alloc: Global,
    name: &str,
    unit: &Resolved,
    calls: &'a CallTable,
    site: &'a SiteTable,
) -> Result<Started<'a>, AllocError>
    ensures { IfOk result (IsStarted name.now (given unit.now calls.now site.now)) }
{
    match launch_unit(alloc, unit, calls, site) {
        Ok(service) => Ok(Started::Launched(service)),
        Err(refusal) => refused(alloc, name, &refusal),
    }
}

/// Starts a unit without the assignments in force at these places.
pub fn start_without<'a>(
    alloc: Global,
    name: &str,
    unit: &Resolved,
    calls: &'a CallTable,
    site: &'a SiteTable,
    places: &[Place],
) -> Result<Started<'a>, AllocError>
    ensures starts { IfOk result (IsStarted name.now (inputs_without (given unit.now calls.now site.now) places.now)) }
{
    let less = without(alloc, unit, places)?;
    start(alloc, name, &less, calls, site)
}
