//! What `derive` prints.

ghost use Rattle.std.specs.Prelude.{◌≡◌, IsErrOf};
ghost use Rattle.asked_service.specs.unit_inputs.command_answers.CommandErrors.{Prepares};
ghost use Rattle.derive_command.specs.trace_profile.Extended.{drop_in_text};
ghost use Rattle.asked_service.specs.unit_inputs.declared.command_answers.exit_status.ExitStatus.TheVariants.{Done};
ghost use Rattle.asked_service.specs.launching.Starting.{given};
ghost use Rattle.derive_command.specs.Telling.{AnswersCalls};
ghost use Rattle.asked_service.specs.unit_inputs.command_answers.ReadyTexts.{IsReadyWith, status_of, text_of};
ghost use Rattle.derive_command.specs.Refusals.{refusals_behind_script};

use crate::refusals::seccomp_line;
use crate::trace_profile::{DeriveError, Resolved, derive, drop_in};
use asked_service::{
    CallTable, CommandError, ExitStatus, ReadyText, Script, SiteTable, refuse, tell_refusal,
};
use std::alloc::Global;

// The drop-in that allows these names.
fn allow_names(alloc: Global, calls: &CallTable, names: &[u32]) -> Result<ReadyText, CommandError>
    ensures { IsReadyWith (λ status text. (status ≡ Done) × (text ≡ drop_in_text calls.now names.now)) result }
{
    Ok(ReadyText {
        text: drop_in(alloc, calls, names)?,
        status: ExitStatus::Done,
    })
}

/// Derives the list for the calls of a script, or finds the first refusal after the script itself. A call that asks to push a
/// program is refused first, and then a setting or a path of the unit that allows every call.
pub fn answer(
    alloc: Global,
    name: &str,
    path: &str,
    unit: &Resolved,
    calls: &CallTable,
    site: &SiteTable,
    script: &Script,
) -> Result<ReadyText, CommandError>
    ensures answers { Prepares (λ made. AnswersCalls (given unit.now calls.now site.now) script.now (status_of made) (text_of made)) (refusals_behind_script name.now path.now (given unit.now calls.now site.now) script.now) result }
    ensures reads_nothing { IsErrOf result CommandError.ReadFault → ⊥ }
{
    match derive(alloc, unit, calls, site, script) {
        Ok(derived) => allow_names(alloc, calls, derived.names.list()),
        Err(DeriveError::Seccomp(number)) => Err(refuse(seccomp_line(alloc, path, number))),
        Err(DeriveError::NotLaunched(refusal)) => tell_refusal(alloc, name, refusal),
    }
}
