//! A set of items, tried on a unit.

ghost use Rattle.std.specs.Prelude.{◌≡◌, ◌<◌, ◌≢◌, IfOk, None, length};
ghost use Rattle.std.specs.List.{All};
ghost use Rattle.asked_service.specs.declared.launching.refusal.Refusal.TheVariants.{Memory};
ghost use Rattle.tighten_command.specs.tightening.Items.{in_order};
ghost use Rattle.tighten_command.specs.tightening.Searching.{CanBeTried, IsOver, Lacks, Pleasing, Tells, tried_of};
ghost use Rattle.tighten_command.specs.tightening.Tried.{IsKept};

use crate::tightening::firsts::{first_denied, first_refused};
use crate::tightening::items::tightened;
use crate::tightening::wishes::{StoredWish, Wished};
use asked_service::{
    Bounded, CallTable, Question, Refusal, Resolved, SiteTable, bound, launch_unit, openness,
    verdict_rows,
};
use std::alloc::{AllocError, Global};

/// What sets of items are tried on.
#[derive(Drop)]
pub struct Trial<'a> {
    /// The unit that is tightened.
    pub unit: &'a Resolved,
    /// The table of calls.
    pub calls: &'a CallTable,
    /// The host.
    pub site: &'a SiteTable,
    /// The questions that are not to be denied.
    pub keep: &'a [Question],
    /// All questions of the tables.
    pub questions: &'a [Question],
}

/// What a service lacks first.
#[derive(Clone, Copy)]
pub enum Lack {
    /// This question of those to be kept, counted from 1, is denied.
    Keep(u64),
    /// This wish, counted from 1, answers false.
    Wish(u64),
}

// A unit that is not launched has no service. If memory runs out, that says nothing of the unit.
fn none_for<'a>(refusal: Refusal) -> Result<Option<Bounded<'a>>, AllocError>
    ensures { IfOk result (λ found. (found ≡ None) × (refusal ≢ Memory)) }
{
    match refusal {
        Refusal::Memory => Err(AllocError),
        _ => Ok(None),
    }
}

impl<'a> Trial<'a> {
    // What a service that keeps all lacks first: the verdicts on all questions are found only where there are wishes to be asked.
    fn lack_of_wishes(
        &self,
        alloc: Global,
        wishes: &[StoredWish],
        bounded: &Bounded<'_>,
    ) -> Result<Option<Lack>, AllocError>
        requires can_be_tried { CanBeTried self.now }
        requires over_the_tables { IsOver (tried_of self.now (⟦<StoredWish as Wished>⟧.wished wishes.now)) bounded.now }
        requires keeps { All (IsKept bounded.now.service.world) self.now.keep.now }
        ensures { IfOk result (Lacks (tried_of self.now (⟦<StoredWish as Wished>⟧.wished wishes.now)) bounded.now.service.world) }
    {
        // Why a service that no wish looks at has verdicts too.
        openness();
        if wishes.is_empty() {
            return Ok(None);
        }
        let rows = verdict_rows(alloc, bounded, self.questions)?;
        match first_refused(&rows, wishes) {
            Some(number) => Ok(Some(Lack::Wish(number))),
            None => Ok(None),
        }
    }

    /// What a service lacks first.
    pub fn lack(
        &self,
        alloc: Global,
        wishes: &[StoredWish],
        bounded: &Bounded<'_>,
    ) -> Result<Option<Lack>, AllocError>
        requires can_be_tried { CanBeTried self.now }
        requires over_the_tables { IsOver (tried_of self.now (⟦<StoredWish as Wished>⟧.wished wishes.now)) bounded.now }
        ensures first_lack { IfOk result (Lacks (tried_of self.now (⟦<StoredWish as Wished>⟧.wished wishes.now)) bounded.now.service.world) }
    {
        match first_denied(bounded, self.keep) {
            Some(number) => Ok(Some(Lack::Keep(number))),
            None => self.lack_of_wishes(alloc, wishes, bounded),
        }
    }

    // The service, where it lacks nothing.
    fn unless_lacking(
        &self,
        alloc: Global,
        wishes: &[StoredWish],
        bounded: Bounded<'a>,
    ) -> Result<Option<Bounded<'a>>, AllocError>
        requires can_be_tried { CanBeTried self.now }
        requires over_the_tables { IsOver (tried_of self.now (⟦<StoredWish as Wished>⟧.wished wishes.now)) bounded }
        ensures { IfOk result (Pleasing (tried_of self.now (⟦<StoredWish as Wished>⟧.wished wishes.now)) bounded.entry) }
    {
        match self.lack(alloc, wishes, &bounded)? {
            Some(_) => Ok(None),
            None => Ok(Some(bounded)),
        }
    }

    /// Returns the service of the unit with a set of items, if it keeps all questions and grants each wish.
    pub fn serves(
        &self,
        alloc: Global,
        wishes: &[StoredWish],
        set: &[u8],
    ) -> Result<Option<Bounded<'a>>, AllocError>
        requires can_be_tried { CanBeTried self.now }
        requires some { 0 < length (in_order set.now) }
        ensures tells_whether_they_serve { IfOk result (Tells (tried_of self.now (⟦<StoredWish as Wished>⟧.wished wishes.now)) set.now) }
    {
        let unit = tightened(alloc, self.unit, set)?;
        match launch_unit(alloc, &unit, self.calls, self.site) {
            Ok(service) => self.unless_lacking(alloc, wishes, bound(alloc, service)?),
            Err(refusal) => none_for(refusal),
        }
    }
}
