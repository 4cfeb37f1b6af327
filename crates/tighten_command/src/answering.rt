//! What `tighten` prints.
ghost use Rattle.std.specs.Prelude.{◌≡◌, ◌≤◌, Contains, IsErrOf};
ghost use Rattle.std.specs.List.{All};
ghost use Rattle.asked_service.specs.kernel_laws.Questions.{questions};
ghost use Rattle.asked_service.specs.unit_inputs.command_answers.ReadyTexts.{IsReadyWith};
ghost use Rattle.tighten_command.specs.tightening.Tried.{tried_with};
ghost use Rattle.tighten_command.specs.Telling.{IsTold, TellsTight};
ghost use Rattle.tighten_command.specs.Lines.{tight_text};
ghost use Rattle.asked_service.specs.unit_inputs.declared.command_answers.exit_status.ExitStatus.TheVariants.{Done};

use crate::lines::{keep_line, tight_text, wish_line};
use crate::tightening::{StoredWish, Tight, TightenError, Wished, tighten};
use asked_service::{
    CallTable, CommandError, ExitStatus, Question, ReadyText, Resolved, SiteTable, refuse,
    tell_refusal,
};
use std::alloc::Global;

// What can be added.
fn tell_tight(alloc: Global, tight: &Tight) -> Result<ReadyText, CommandError>
    requires are_items { All (λ item. (1 ≤ item) × (item ≤ 17)) tight.now.items }
    ensures { IsReadyWith (λ status text. (status ≡ Done) × (text ≡ tight_text tight.now)) result }
{
    Ok(ReadyText {
        text: tight_text(alloc, tight)?,
        status: ExitStatus::Done,
    })
}

/// Tightens the unit, and prints the items that can be added. Otherwise it says why the unit has no settings, no plan or no
/// launch, denies a question that is to be kept, or does not grant a wish.
pub fn answer(
    alloc: Global,
    name: &str,
    unit: &Resolved,
    calls: &CallTable,
    site: &SiteTable,
    keep: &[Question],
    wishes: &[StoredWish],
) -> Result<ReadyText, CommandError>
    requires listed { All (λ question. Contains (questions calls.now site.now) question) keep.now }
    ensures answers { IsTold (TellsTight name.now (tried_with unit.now calls.now site.now keep.now (⟦<StoredWish as Wished>⟧.wished wishes.now))) result }
    ensures reads_nothing { IsErrOf result CommandError.ReadFault → ⊥ }
{
    match tighten(alloc, unit, calls, site, keep, wishes) {
        Ok(tight) => tell_tight(alloc, &tight),
        Err(TightenError::NotLaunched(refusal)) => tell_refusal(alloc, name, refusal),
        Err(TightenError::Keep(number)) => Err(refuse(keep_line(alloc, name, number))),
        Err(TightenError::Wish(number)) => Err(refuse(wish_line(alloc, name, number))),
    }
}
