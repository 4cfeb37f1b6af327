//! What is searched for: lines without which a question is open, and lines with which a unit is launched.

use crate::deciding_lines::leaving_out::Search;
use crate::deciding_lines::starting::Started;
use crate::deciding_lines::trial::Trial;
use crate::deciding_lines::unit_lines::all_but;
use asked_service::{Launched, Place};
use std::alloc::{AllocError, Global};

// Lines serve if the question is open without them.
impl<'a> Search for Trial<'a> {
    ghost use Rattle.why_command.specs.deciding_lines.Tried.{CanBeTried, IsOpenWithout, IsShutWithout, tried_of};

    type Thing = Place;

    type Found = ();

    ghost can_try = { CanBeTried };

    ghost serves = { λ trial places _. IsOpenWithout (tried_of trial) places };

    ghost fails = { λ trial places. IsShutWithout (tried_of trial) places };

    fn attempt(&self, alloc: Global, things: &[Place]) -> Result<Option<()>, AllocError> {
        let is_open = self.is_open_without(alloc, things)?;
        if is_open { Ok(Some(())) } else { Ok(None) }
    }
}

/// Some lines of a unit. The unit may need a few of them.
#[derive(Drop)]
pub struct Needs<'b, 'a> {
    /// The unit.
    pub trial: &'b Trial<'a>,
    /// The lines.
    pub lines: &'b [Place],
}

// Some of the lines serve if the unit is launched with them, and without the others.
impl<'b, 'a> Search for Needs<'b, 'a> {
    ghost use Rattle.why_command.specs.deciding_lines.Deciding.{IsLaunchedWith, IsNotLaunchedWith};
    ghost use Rattle.why_command.specs.deciding_lines.Tried.{tried_of};

    type Thing = Place;

    type Found = Launched<'a>;

    ghost can_try = { λ _. Unit {0} };

    ghost serves = { λ needs. IsLaunchedWith (tried_of needs.trial.now) needs.lines.now };

    ghost fails = { λ needs. IsNotLaunchedWith (tried_of needs.trial.now) needs.lines.now };

    fn attempt(&self, alloc: Global, things: &[Place]) -> Result<Option<Launched<'a>>, AllocError> {
        let gone = all_but(alloc, things, self.lines)?;
        match self.trial.start_without(alloc, &gone)? {
            Started::Launched(service) => Ok(Some(service)),
            Started::Refused(_) => Ok(None),
        }
    }
}
