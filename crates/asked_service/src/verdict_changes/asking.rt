//! What changes of a question.
ghost use Rattle.std.specs.Prelude.{◌≡◌, Contains, IfOk};
ghost use Rattle.asked_service.specs.Asking.{IsAsked, launch_in, world_in};
ghost use Rattle.asked_service.specs.Lent.{IsServiceOf};
ghost use Rattle.judge.specs.kernel_laws.Questions.{questions};
ghost use Rattle.asked_service.specs.verdict_changes.ByRule.{question_change};
ghost use Rattle.asked_service.specs.verdict_changes.Found.{change_of};

use crate::asking::Asked;
use open_calls::{Service, calls};
use questions::{Call, Question};
use std::alloc::AllocError;

/// What changes of a question from one launched service to another.
#[derive(Drop)]
pub enum VerdictChange {
    /// The two share the verdict.
    Same,
    /// It was open, and is denied.
    Closed,
    /// It was denied, and is open by this list of calls.
    Opened(Vec<Call>),
}

/// What changes of a question from one launched service to another over the same tables. Where it is opened, the calls are those
/// that reach it in the second, which are made for that service.
pub fn verdict_change(
    before: &Asked<'_>,
    after: &Asked<'_>,
    service: &Service<'_>,
    question: &Question,
) -> Result<VerdictChange, AllocError>
    requires before { IsAsked before.now }
    requires after { IsAsked after.now }
    requires its_service { IsServiceOf after.now service.now }
    requires listed_before { Contains (questions (world_in before.now).calls (world_in before.now).site) question.now }
    requires listed_after { Contains (questions (world_in after.now).calls (world_in after.now).site) question.now }
    ensures by_the_rule { IfOk result (λ change. change_of question.now change ≡ question_change (launch_in before.now) (launch_in after.now) after.now.bounded.service.program question.now) }
{
    match (
        before.bounded.is_open(question),
        after.bounded.is_open(question),
    ) {
        (true, true) | (false, false) => Ok(VerdictChange::Same),
        (true, false) => Ok(VerdictChange::Closed),
        (false, true) => Ok(VerdictChange::Opened(calls(service, question)?)),
    }
}
