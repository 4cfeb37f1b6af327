//! The text of what each line of a unit denies by itself.
ghost use Rattle.std.specs.Prelude.{◌≡◌, IfOk, IsErrOf, Ok};
ghost use Rattle.asked_service.specs.unit_inputs.command_answers.CommandErrors.{Prepares};
ghost use Rattle.asked_service.specs.launching.Starting.{StartsAs, given, start_refusals};
ghost use Rattle.asked_service.specs.unit_inputs.declared.command_answers.exit_status.ExitStatus.TheVariants.{Done};
ghost use Rattle.asked_service.specs.unit_inputs.command_answers.ReadyTexts.{IsReadyWith, status_of, text_of};
ghost use Rattle.why_command.specs.lines_command.Prints.{TellsLines, TellsService};
ghost use Rattle.why_command.specs.opening_lines.Judging.{IsJudged, inputs_in};

use crate::deciding_lines::unit_lines::lines;
use crate::lines_command::lines::lines_text;
use crate::opening_lines::Judged;
use asked_service::{
    CallTable, CommandError, ExitStatus, Launched, ReadyText, Resolved, SiteTable, ask,
    launch_unit, tell_refusal,
};
use std::alloc::{AllocError, Global};

// The text for a unit that is launched and asked: each of its lines with what it denies by itself.
fn tell_judged(alloc: Global, judged: &Judged<'_>) -> Result<Vec<u8>, AllocError>
    requires judged { IsJudged judged.now }
    ensures { IfOk result (λ text. TellsService judged.now.name.now (inputs_in judged.now) judged.now.asked.bounded.service text.items) }
{
    let all = lines(alloc, judged.unit)?;
    let told = judged.each(alloc, &all)?;
    lines_text(alloc, judged.unit, &told, judged.calls, judged.site)
}

// The text for a launched service.
fn tell_service<'a>(
    alloc: Global,
    name: &'a str,
    unit: &'a Resolved,
    calls: &'a CallTable,
    site: &'a SiteTable,
    service: Launched<'a>,
) -> Result<Vec<u8>, AllocError>
    requires starts { StartsAs (given unit.now calls.now site.now) (Ok service) }
    ensures { IfOk result (λ text. TellsService name.now (given unit.now calls.now site.now) service.entry text.items) }
{
    let asked = ask(alloc, service)?;
    let judged = Judged {
        name,
        unit,
        calls,
        site,
        asked,
    };
    tell_judged(alloc, &judged)
}

// The same, with the exit status after it.
fn tell_launched<'a>(
    alloc: Global,
    name: &'a str,
    unit: &'a Resolved,
    calls: &'a CallTable,
    site: &'a SiteTable,
    service: Launched<'a>,
) -> Result<ReadyText, CommandError>
    requires starts { StartsAs (given unit.now calls.now site.now) (Ok service) }
    ensures { IsReadyWith (λ status text. (status ≡ Done) × TellsService name.now (given unit.now calls.now site.now) service.entry text) result }
{
    Ok(ReadyText {
        text: tell_service(alloc, name, unit, calls, site, service)?,
        status: ExitStatus::Done,
    })
}

/// Launches the unit, and makes the text of each of its lines with what it denies by itself; or finds the first refusal of its
/// settings and paths.
pub fn answer(
    alloc: Global,
    name: &str,
    unit: &Resolved,
    calls: &CallTable,
    site: &SiteTable,
) -> Result<ReadyText, CommandError>
    ensures answers { Prepares (λ made. TellsLines name.now (given unit.now calls.now site.now) (status_of made) (text_of made)) (start_refusals name.now (given unit.now calls.now site.now)) result }
    ensures reads_nothing { IsErrOf result CommandError.ReadFault → ⊥ }
{
    match launch_unit(alloc, unit, calls, site) {
        Ok(service) => tell_launched(alloc, name, unit, calls, site, service),
        Err(refusal) => tell_refusal(alloc, name, refusal),
    }
}
