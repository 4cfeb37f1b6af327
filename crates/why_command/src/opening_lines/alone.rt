//! What a line of a unit denies by itself.
ghost use Rattle.std.specs.Prelude.{◌≡◌, ◌∷◌, [], IfOk, Ok};
ghost use Rattle.asked_service.specs.Asked.{IsBounded};
ghost use Rattle.asked_service.specs.launching.Starting.{StartsAs};
ghost use Rattle.why_command.specs.deciding_lines.Tried.{inputs_without};
ghost use Rattle.why_command.specs.opening_lines.Judging.{IsAloneOf, IsJudged, inputs_in, shut_in};

use crate::deciding_lines::{Started, start_without};
use crate::opening_lines::judged::Judged;
use crate::opening_lines::opened::{opened, shut};
use asked_service::{Bounded, Launched, Place, Question, bound, truths};
use std::alloc::{AllocError, Global};

/// What an assignment in force denies by itself.
#[derive(Drop)]
pub enum Alone {
    /// These questions, in the order of the list: they are denied, and open without it.
    Opens(Vec<Question>),
    /// The line is needed: without it the unit has no settings, no plan of its mounts or no launch.
    Needed,
}

impl Judged<'_> {
    /// Returns the questions that are denied of the unit.
    pub(crate) fn shut_questions(&self, alloc: Global) -> Result<Vec<Question>, AllocError>
        requires judged { IsJudged self.now }
        ensures denied_of_the_unit { IfOk result (λ shut. shut.items ≡ shut_in self.now) }
    {
        let list = self.asked.questions.as_slice();
        shut(alloc, &self.asked.bounded, list)
    }

    // What the line at a place denies, by the service of the unit without it. Only questions that are denied with it are asked.
    fn opens_by(
        &self,
        alloc: Global,
        place: Place,
        after: &Bounded<'_>,
        shut: &[Question],
    ) -> Result<Alone, AllocError>
        requires judged { IsJudged self.now }
        requires shut { shut.now ≡ shut_in self.now }
        requires bounded { IsBounded after.now }
        requires starts { StartsAs (inputs_without (inputs_in self.now) (place ∷ [])) (Ok after.now.service) }
        ensures { IfOk result (IsAloneOf self.now place) }
    {
        // The law that the verdicts are exact.
        truths();
        Ok(Alone::Opens(opened(alloc, after, shut)?))
    }

    // The same, where the service has no bounds yet.
    fn opens(
        &self,
        alloc: Global,
        place: Place,
        service: Launched<'_>,
        shut: &[Question],
    ) -> Result<Alone, AllocError>
        requires judged { IsJudged self.now }
        requires shut { shut.now ≡ shut_in self.now }
        requires starts { StartsAs (inputs_without (inputs_in self.now) (place ∷ [])) (Ok service) }
        ensures { IfOk result (IsAloneOf self.now place) }
    {
        let after = bound(alloc, service)?;
        self.opens_by(alloc, place, &after, shut)
    }

    /// What the line at a place denies by itself, of the questions that are denied of the unit.
    pub(crate) fn alone_of(
        &self,
        alloc: Global,
        place: Place,
        shut: &[Question],
    ) -> Result<Alone, AllocError>
        requires judged { IsJudged self.now }
        requires shut { shut.now ≡ shut_in self.now }
        ensures is_so { IfOk result (IsAloneOf self.now place) }
    {
        match start_without(alloc, self.name, self.unit, self.calls, self.site, &[place])? {
            Started::Launched(service) => self.opens(alloc, place, service, shut),
            Started::Refused(_) => Ok(Alone::Needed),
        }
    }

    /// What the line at a place denies by itself: exactly the questions that are denied of the unit and open of the unit without it;
    /// or that the unit without it is not launched.
    pub fn alone(&self, alloc: Global, place: Place) -> Result<Alone, AllocError>
        requires judged { IsJudged self.now }
        ensures is_so { IfOk result (IsAloneOf self.now place) }
    {
        let shut = self.shut_questions(alloc)?;
        self.alone_of(alloc, place, &shut)
    }
}
