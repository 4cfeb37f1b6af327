//! A unit, tightened.

ghost use Rattle.std.specs.Prelude.{[], ℕ, Contains, IfOk, IsErrOf};
ghost use Rattle.std.specs.List.{All};
ghost use Rattle.asked_service.specs.declared.launching.refusal.Refusal.{Refusal};
ghost use Rattle.asked_service.specs.kernel_laws.Questions.{questions};
ghost use Rattle.asked_service.specs.launching.Launched.{IsNotLaunched};
ghost use Rattle.tighten_command.specs.tightening.Searching.{CanBeTried, IsServing, tried_of};
ghost use Rattle.tighten_command.specs.tightening.Tight.{Denies, IsTight, RefusesWish};
ghost use Rattle.tighten_command.specs.tightening.Tried.{tried_with};

use crate::tightening::items::in_order;
use crate::tightening::searching::Held;
use crate::tightening::tight::{Items, Tight, TightenError};
use crate::tightening::trial::{Lack, Trial};
use crate::tightening::wishes::{StoredWish, Wished};
use asked_service::{
    Bounded, CallTable, Question, Resolved, SiteTable, bound, count_open, launch_unit, openness,
};
use question_text::questions;
use std::alloc::{AllocError, Global};

// The items that can be added to a unit whose own service lacks nothing.
fn tight_from<'a>(
    alloc: Global,
    trial: &Trial<'a>,
    wishes: &[StoredWish],
    own: Bounded<'a>,
) -> Result<Tight, AllocError>
    requires can_be_tried { CanBeTried trial.now }
    requires serves { IsServing (tried_of trial.now (⟦<StoredWish as Wished>⟧.wished wishes.now)) [] own }
    ensures { IfOk result (IsTight (tried_of trial.now (⟦<StoredWish as Wished>⟧.wished wishes.now))) }
{
    // The law that the counts are the numbers of denied questions.
    openness();
    let all = trial.questions.len();
    let open_before = count_open(&own, trial.questions);
    let held = Held {
        set: Vec::new(alloc),
        bounded: own,
    };
    let most = trial.most(alloc, wishes, held)?;
    let open_after = count_open(&most.bounded, trial.questions);
    Ok(Tight {
        items: Items::new(in_order(alloc, &most.set)?),
        denied_before: (all - open_before) as u64,
        open_before: open_before as u64,
        denied_after: (all - open_after) as u64,
        open_after: open_after as u64,
    })
}

/// Adds items to a unit as long as the questions in `keep` stay open and the wishes stay granted.
///
/// The unit with the items serves: it is launched, it denies no question in `keep`, and each wish answers true on the verdicts
/// on all questions, so that its own questions are open. With any other of the seventeen items it does not serve. The items
/// outside the set are tried from the last down, as long as one was added.
///
/// Returns `NotLaunched` with the refusal of the unit itself. Otherwise returns `Keep(n)` exactly if question n of `keep`, from
/// 1, is the first that the unit denies. Otherwise returns `Wish(n)` exactly if wish n is the first that answered false on the
/// unit's verdicts. Memory can run out for any unit.
pub fn tighten(
    alloc: Global,
    unit: &Resolved,
    calls: &CallTable,
    site: &SiteTable,
    keep: &[Question],
    wishes: &[StoredWish],
) -> Result<Tight, TightenError>
    requires listed { All (λ question. Contains (questions calls.now site.now) question) keep.now }
    ensures tight { IfOk result (IsTight (tried_with unit.now calls.now site.now keep.now (⟦<StoredWish as Wished>⟧.wished wishes.now))) }
    ensures launch_refusal { (why : Refusal) → IsErrOf result (TightenError.NotLaunched why)
        → IsNotLaunched unit.now calls.now site.now why }
    ensures keep_refusal { (number : ℕ) → IsErrOf result (TightenError.Keep number)
        → Denies (tried_with unit.now calls.now site.now keep.now (⟦<StoredWish as Wished>⟧.wished wishes.now)) number }
    ensures wish_refusal { (number : ℕ) → IsErrOf result (TightenError.Wish number)
        → RefusesWish (tried_with unit.now calls.now site.now keep.now (⟦<StoredWish as Wished>⟧.wished wishes.now)) number }
{
    let list = questions(alloc, calls, site)?;
    let trial = Trial {
        unit,
        calls,
        site,
        keep,
        questions: &list,
    };
    let service = launch_unit(alloc, unit, calls, site)?;
    let own = bound(alloc, service)?;
    match trial.lack(alloc, wishes, &own)? {
        Some(Lack::Keep(number)) => Err(TightenError::Keep(number)),
        Some(Lack::Wish(number)) => Err(TightenError::Wish(number)),
        None => Ok(tight_from(alloc, &trial, wishes, own)?),
    }
}
