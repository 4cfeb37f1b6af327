//! Why a question is denied of a unit.
ghost use Rattle.std.specs.Prelude.{IfOk, Ok};
ghost use Rattle.asked_service.specs.launching.Starting.{StartsAs};
ghost use Rattle.why_command.specs.deciding_lines.Deciding.{IsReason, IsReasonAt};
ghost use Rattle.why_command.specs.deciding_lines.Searching.{DeniesWithout};
ghost use Rattle.why_command.specs.deciding_lines.Tried.{CanBeTried, IsNotLaunched, inputs_without, tried_of};

use crate::deciding_lines::bare::bare_places;
use crate::deciding_lines::leaving_out::least;
use crate::deciding_lines::searching::Needs;
use crate::deciding_lines::starting::Started;
use crate::deciding_lines::trial::{Trial, is_open_of};
use crate::deciding_lines::unit_lines::all_but;
use asked_service::{Launched, Place};
use std::alloc::{AllocError, Global};

/// What denies a question that is denied.
#[derive(Drop)]
pub enum Reason {
    /// No line of the unit: it is denied also without all assignments in force but ExecStart=.
    Nothing,
    /// The assignments in force at these places.
    Lines(Vec<Place>),
    /// The unit without all lines but ExecStart= has no settings, no plan of mounts or no launch: this is the line of that refusal.
    /// The question is denied also without all lines but ExecStart= and those that the unit needs.
    NotLaunched(Vec<u8>),
}

impl<'a> Trial<'a> {
    // What denies it: some of these lines, if it is open of the service of the unit without them; else the other answer.
    fn denying(
        &self,
        alloc: Global,
        gone: Vec<Place>,
        service: Launched<'_>,
        otherwise: Reason,
    ) -> Result<Reason, AllocError>
        requires can_be_tried { CanBeTried self.now }
        requires starts { StartsAs (inputs_without (tried_of self.now).inputs gone.items) (Ok service) }
        ensures { IfOk result (DeniesWithout (tried_of self.now) gone.items otherwise) }
    {
        let is_open = is_open_of(alloc, service, &self.question)?;
        if is_open {
            let found = least(alloc, self, gone, ())?;
            Ok(Reason::Lines(found.things))
        } else {
            Ok(otherwise)
        }
    }

    // What denies it of a unit that is launched, but not without all of these lines: those that it needs stay.
    fn denying_but_needed(
        &self,
        alloc: Global,
        lines: &[Place],
        whole: Launched<'a>,
        line: Vec<u8>,
    ) -> Result<Reason, AllocError>
        requires can_be_tried { CanBeTried self.now }
        requires starts { StartsAs (tried_of self.now).inputs (Ok whole) }
        requires refused { IsNotLaunched (tried_of self.now).name (inputs_without (tried_of self.now).inputs lines.now) line.items }
        ensures { IfOk result (IsReasonAt (tried_of self.now) lines.now) }
    {
        let needs = Needs { trial: self, lines };
        let all = Vec::from_slice(alloc, lines)?;
        let kept = least(alloc, &needs, all, whole)?;
        let gone = all_but(alloc, &kept.things, lines)?;
        self.denying(alloc, gone, kept.found, Reason::NotLaunched(line))
    }

    /// Finds what denies a question that is denied for this service of the unit: lines without which it is open, each of which
    /// matters.
    ///
    /// All lines but ExecStart= are removed; or, if the unit is then not launched, all but the lines that it needs. They are
    /// put back from the last of the [`bare_places`] to the first, repeatedly, as long as the question stays open.
    pub fn reason(&self, alloc: Global, whole: Launched<'a>) -> Result<Reason, AllocError>
        requires can_be_tried { CanBeTried self.now }
        requires starts { StartsAs (tried_of self.now).inputs (Ok whole) }
        ensures is_the_reason { IfOk result (IsReason (tried_of self.now)) }
    {
        let lines = bare_places(alloc, self.unit)?;
        match self.start_without(alloc, &lines)? {
            Started::Launched(service) => self.denying(alloc, lines, service, Reason::Nothing),
            Started::Refused(line) => self.denying_but_needed(alloc, &lines, whole, line),
        }
    }
}
