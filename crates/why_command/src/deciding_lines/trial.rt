//! A unit without some of its lines, asked one question.
ghost use Rattle.std.specs.Prelude.{◌≡◌, Contains, IfOk};
ghost use Rattle.asked_service.specs.kernel_laws.Questions.{questions};
ghost use Rattle.asked_service.specs.kernel_ways.Laws.{IsServedWorld};
ghost use Rattle.why_command.specs.deciding_lines.Tried.{CanBeTried, IsSaid, StartsWithout, TellsOpen, tried_of};

use crate::deciding_lines::starting::{Started, start_without};
use asked_service::{CallTable, Launched, Place, Question, Resolved, SiteTable, bound, openness};
use std::alloc::{AllocError, Global};

/// A unit, the tables and a question, for which sets of lines are tried.
#[derive(Drop)]
pub struct Trial<'a> {
    /// The name of the unit, which lines of refusals print.
    pub name: &'a str,
    /// The unit.
    pub unit: &'a Resolved,
    /// The table of calls.
    pub calls: &'a CallTable,
    /// The host.
    pub site: &'a SiteTable,
    /// The question, from the list of the tables' questions.
    pub question: Question,
}

/// Whether a question is open for a launched service.
pub fn is_open_of(
    alloc: Global,
    service: Launched<'_>,
    question: &Question,
) -> Result<bool, AllocError>
    requires served { IsServedWorld service.world }
    requires listed { Contains (questions service.world.calls service.world.site) question.now }
    ensures tells { IfOk result (IsSaid service.entry.world question.now) }
{
    // The law that the verdict is exact.
    openness();
    let bounded = bound(alloc, service)?;
    Ok(bounded.is_open(question))
}

impl<'a> Trial<'a> {
    /// What the unit without the assignments in force at these places starts as.
    pub fn start_without(&self, alloc: Global, places: &[Place]) -> Result<Started<'a>, AllocError>
        ensures starts { IfOk result (StartsWithout (tried_of self.now) places.now) }
    {
        start_without(alloc, self.name, self.unit, self.calls, self.site, places)
    }

    /// Whether the question is open of the unit without the assignments in force at these places. Without settings, a plan or a
    /// launch it is not.
    pub fn is_open_without(&self, alloc: Global, places: &[Place]) -> Result<bool, AllocError>
        requires can_be_tried { CanBeTried self.now }
        ensures tells { IfOk result (TellsOpen (tried_of self.now) places.now) }
    {
        match self.start_without(alloc, places)? {
            Started::Launched(service) => is_open_of(alloc, service, &self.question),
            Started::Refused(_) => Ok(false),
        }
    }
}
