//! A launched service with what bounds its processes, for verdicts on a few questions.

ghost use Rattle.std.specs.Prelude.{◌≡◌, ◌↔◌, true, Contains, IfOk};
ghost use Rattle.judge.specs.kernel_laws.Launched.{launch_of};
ghost use Rattle.judge.specs.kernel_laws.Questions.{questions};
ghost use Rattle.judge.specs.kernel_ways.Laws.{IsServedWorld};
ghost use Rattle.asked_service.specs.Asked.{IsBounded, is_open_by};
ghost use Rattle.asked_service.specs.Rows.{IsSo};

use judge::{Ceiling, Launched, ceiling, openness, verdict};
use report_text::{Question, Verdict};
use std::alloc::{AllocError, Global};

/// A launched service, with what bounds its processes.
#[derive(Drop)]
pub struct Bounded<'a> {
    /// The service, as the launch left it.
    pub service: Launched<'a>,
    /// Its own ceiling.
    pub ceiling: Ceiling,
}

/// Makes the ceiling of a launched service.
pub fn bound<'a>(alloc: Global, service: Launched<'a>) -> Result<Bounded<'a>, AllocError>
    requires served { IsServedWorld service.world }
    ensures bounds { IfOk result (λ bounded. (bounded.service ≡ service.entry) × IsBounded bounded) }
{
    let top = ceiling(alloc, &service)?;
    Ok(Bounded {
        service,
        ceiling: top,
    })
}

// Returns whether a verdict says that a question is open.
fn says_open(found: Verdict) -> bool
    ensures { (result ≡ true) ↔ (found ≡ Verdict.Open) }
{
    match found {
        Verdict::Denied => false,
        Verdict::Open => true,
    }
}

impl Bounded<'_> {
    /// Returns whether a question of the tables is open: one verdict alone, which takes no memory.
    pub fn is_open(&self, question: &Question) -> bool
        requires bounded { IsBounded self.now }
        requires listed { Contains (questions self.now.service.world.calls self.now.service.world.site) question.now }
        ensures is_so { IsSo self.now.service.world question.now result }
        ensures by_the_rule { result ≡ is_open_by self.now.service.world question.now }
    {
        // The law says why the verdict is exact.
        openness();
        says_open(verdict(&self.service, &self.ceiling, question))
    }
}
