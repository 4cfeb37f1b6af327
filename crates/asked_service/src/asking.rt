//! A launched service, and the questions about it.
ghost use Rattle.std.specs.Prelude.{◌≡◌, IfOk};
ghost use Rattle.judge.specs.kernel_laws.Launched.{launch_of};
ghost use Rattle.judge.specs.kernel_ways.Laws.{IsServedWorld};
ghost use Rattle.judge.specs.kernel_ways.Offers.{RunsProgram};
ghost use Rattle.asked_service.specs.Asking.{IsAsked};

use crate::bounding::{Bounded, bound};
use judge::Launched;
use questions::{Question, questions};
use std::alloc::{AllocError, Global};

/// A launched service, with the bounds of its processes and all questions about it.
#[derive(Drop)]
pub struct Asked<'a> {
    /// The service, as the launch left it, and its own ceiling.
    pub bounded: Bounded<'a>,
    /// All questions of its tables, in their order.
    pub questions: Vec<Question>,
}

/// Makes the ceiling of a launched service and the list of questions, each once.
pub fn ask<'a>(alloc: Global, service: Launched<'a>) -> Result<Asked<'a>, AllocError>
    requires served { IsServedWorld service.world }
    requires program { RunsProgram (launch_of service.world) service.program }
    ensures asks { IfOk result (λ asked. (asked.bounded.service ≡ service.entry) × IsAsked asked) }
{
    let bounded = bound(alloc, service)?;
    let world = &bounded.service.world;
    let list = questions(alloc, world.call_table(), world.site_table())?;
    Ok(Asked {
        bounded,
        questions: list,
    })
}
