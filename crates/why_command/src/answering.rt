//! The answer to a question, and what denies it.
ghost use Rattle.std.specs.Prelude.{◌≡◌, IfOk, IsErrOf, Ok, false, true};
ghost use Rattle.asked_service.specs.Asked.{is_open_by};
ghost use Rattle.asked_service.specs.Rows.{IsSo};
ghost use Rattle.asked_service.specs.unit_inputs.command_answers.CommandErrors.{Prepares};
ghost use Rattle.why_command.specs.deciding_lines.Tried.{CanBeTried, tried_of};
ghost use Rattle.asked_service.specs.launching.Starting.{StartsAs, start_refusals};
ghost use Rattle.why_command.specs.Asking.{CanBeAsked};
ghost use Rattle.asked_service.specs.unit_inputs.declared.command_answers.exit_status.ExitStatus.TheVariants.{Done};
ghost use Rattle.asked_service.specs.unit_inputs.command_answers.ReadyTexts.{IsReadyWith, status_of, text_of};
ghost use Rattle.why_command.specs.Prints.{TellsService, TellsWhy};

use crate::deciding_lines::Trial;
use crate::telling::denied_text;
use asked_service::{
    Bounded, CommandError, ExitStatus, Launched, ReadyText, Service, bound, calls, launch_unit,
    open_lines, tell_refusal,
};
use std::alloc::{AllocError, Global};

// A question that is open, with the calls that reach it.
fn tell_open(alloc: Global, trial: &Trial<'_>, bounded: &Bounded<'_>) -> Result<Vec<u8>, AllocError>
    requires can_be_tried { CanBeTried trial.now }
    requires can_be_asked { CanBeAsked (tried_of trial.now) bounded.now }
    requires is_open { is_open_by bounded.now.service.world trial.now.question ≡ true }
    requires is_so { IsSo bounded.now.service.world trial.now.question true }
    ensures { IfOk result (λ text. TellsService (tried_of trial.now) bounded.now.service text.items) }
{
    let service = Service::of(alloc, &bounded.service, &bounded.ceiling)?;
    let list = calls(&service, &trial.question)?;
    open_lines(alloc, &trial.question, &list, trial.calls, trial.site)
}

// A question that is denied, with what denies it.
fn tell_denied<'a>(
    alloc: Global,
    trial: &Trial<'a>,
    service: Launched<'a>,
) -> Result<Vec<u8>, AllocError>
    requires can_be_tried { CanBeTried trial.now }
    requires starts { StartsAs (tried_of trial.now).inputs (Ok service) }
    requires is_so { IsSo service.world trial.now.question false }
    ensures { IfOk result (λ text. TellsService (tried_of trial.now) service.entry text.items) }
{
    let reason = trial.reason(alloc, service)?;
    denied_text(
        alloc,
        &trial.question,
        trial.unit,
        &reason,
        trial.calls,
        trial.site,
    )
}

// The text for a launched service.
fn tell_service<'a>(
    alloc: Global,
    trial: &Trial<'a>,
    service: Launched<'a>,
) -> Result<Vec<u8>, AllocError>
    requires can_be_tried { CanBeTried trial.now }
    requires starts { StartsAs (tried_of trial.now).inputs (Ok service) }
    ensures { IfOk result (λ text. TellsService (tried_of trial.now) service.entry text.items) }
{
    let bounded = bound(alloc, service)?;
    if bounded.is_open(&trial.question) {
        tell_open(alloc, trial, &bounded)
    } else {
        tell_denied(alloc, trial, bounded.service)
    }
}

// The same, with the exit status after it.
fn tell_launched<'a>(
    alloc: Global,
    trial: &Trial<'a>,
    service: Launched<'a>,
) -> Result<ReadyText, CommandError>
    requires can_be_tried { CanBeTried trial.now }
    requires starts { StartsAs (tried_of trial.now).inputs (Ok service) }
    ensures { IsReadyWith (λ status text. (status ≡ Done) × TellsService (tried_of trial.now) service.entry text) result }
{
    Ok(ReadyText {
        text: tell_service(alloc, trial, service)?,
        status: ExitStatus::Done,
    })
}

/// Launches the unit, and makes the text of the answer: the question is open, with calls that reach it, or denied, with what
/// denies it. Or finds the first refusal of the settings and paths of the unit.
pub fn answer(alloc: Global, trial: &Trial<'_>) -> Result<ReadyText, CommandError>
    requires can_be_tried { CanBeTried trial.now }
    ensures answers { Prepares (λ made. TellsWhy (tried_of trial.now) (status_of made) (text_of made)) (start_refusals trial.now.name.now (tried_of trial.now).inputs) result }
    ensures reads_nothing { IsErrOf result CommandError.ReadFault → ⊥ }
{
    match launch_unit(alloc, trial.unit, trial.calls, trial.site) {
        Ok(service) => tell_launched(alloc, trial, service),
        Err(refusal) => tell_refusal(alloc, trial.name, refusal),
    }
}
