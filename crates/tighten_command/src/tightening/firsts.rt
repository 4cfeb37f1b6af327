//! The first question that is denied, and the first wish that is refused.

ghost use Rattle.std.specs.Prelude.{◌≡◌, Contains, IfNone, IfSome, false, length};
ghost use Rattle.std.specs.List.{All};
ghost use Rattle.asked_service.specs.Asked.{IsBounded};
ghost use Rattle.asked_service.specs.kernel_laws.Questions.{questions};
ghost use Rattle.tighten_command.specs.tightening.Tried.{IsFirst, IsGranted, IsKept, IsShut};

use crate::tightening::wishes::{StoredWish, Wished};
use asked_service::{Bounded, Question, VerdictRow};

/// The first of these questions that is denied, counted from 1.
pub fn first_denied(bounded: &Bounded<'_>, keep: &[Question]) -> Option<u64>
    requires bounded { IsBounded bounded.now }
    requires listed { All (λ question. Contains (questions bounded.now.service.world.calls bounded.now.service.world.site) question) keep.now }
    ensures first_that_is_denied { IfSome result (IsFirst (IsKept bounded.now.service.world) (IsShut bounded.now.service.world) keep.now) }
    ensures none_is_denied { IfNone result (All (IsKept bounded.now.service.world) keep.now) }
{
    let mut before: u64 = 0;
    for question in keep {
        let is_open = bounded.is_open(question);
        if is_open {
            before += 1;
        } else {
            return Some(before + 1);
        }
    }
    None
}

/// The first of these wishes that answers false, counted from 1.
pub fn first_refused(rows: &[VerdictRow], wishes: &[StoredWish]) -> Option<u64>
    ensures first_that_answers_false { let all = ⟦<StoredWish as Wished>⟧.wished wishes.now in
        IfSome result (IsFirst (IsGranted all rows.now) (λ wish. all.Answers rows.now wish false) wishes.now) }
    ensures all_are_granted { IfNone result (All (IsGranted (⟦<StoredWish as Wished>⟧.wished wishes.now) rows.now) wishes.now) }
{
    let mut before: u64 = 0;
    for wish in wishes {
        let is_granted = wish.answer(rows);
        if is_granted {
            before += 1;
        } else {
            return Some(before + 1);
        }
    }
    None
}
