//! A launched service that is judged.
ghost use Rattle.std.specs.Prelude.{IfOk};
ghost use Rattle.asked_service.specs.kernel_laws.Launched.{launch_of};
ghost use Rattle.asked_service.specs.kernel_ways.Laws.{IsServedWorld};
ghost use Rattle.asked_service.specs.kernel_ways.Offers.{RunsProgram};
ghost use Rattle.sample_command.specs.Counts.{CountsAnswers};
ghost use Rattle.asked_service.specs.Asking.{IsAsked};

use crate::sampled::Sampled;
use asked_service::{Asked, Launched, ask, count_open};
use std::alloc::{AllocError, Global};

// Counts the answers to all that is asked.
fn count(number: u32, asked: &Asked<'_>) -> Sampled
    requires asked { IsAsked asked.now }
    ensures counts { CountsAnswers number asked.now.bounded.service.world asked.now.bounded.service.program result }
{
    let questions = asked.questions.as_slice();
    let open = count_open(&asked.bounded, questions);
    Sampled {
        number,
        rows: asked.bounded.service.world.site_table().rows().len(),
        questions: questions.len(),
        denied: questions.len() - open,
        open,
    }
}

/// Asks every question of the service, and counts the answers.
pub fn judge_sample(
    alloc: Global,
    number: u32,
    service: Launched<'_>,
) -> Result<Sampled, AllocError>
    requires served { IsServedWorld service.world }
    requires program { RunsProgram (launch_of service.world) service.program }
    ensures judges { IfOk result (CountsAnswers number service.entry.world service.entry.program) }
{
    let asked = ask(alloc, service)?;
    Ok(count(number, &asked))
}
