//! What each line of a unit denies by itself.
ghost use Rattle.std.specs.Prelude.{◌≡◌, IfOk, map};
ghost use Rattle.std.specs.List.{All};
ghost use Rattle.why_command.specs.opening_lines.Judging.{IsAloneOf, IsJudged, shut_in};

use crate::deciding_lines::unit_lines::UnitLine;
use crate::opening_lines::alone::Alone;
use crate::opening_lines::judged::Judged;
use asked_service::Question;
use std::alloc::{AllocError, Global};

/// An assignment in force, and what it denies by itself.
#[derive(Drop)]
pub struct LineAlone<'a> {
    /// The assignment.
    pub line: &'a UnitLine,
    /// What it denies.
    pub alone: Alone,
}

impl Judged<'_> {
    // A line with what it denies by itself.
    fn tell<'a>(
        &self,
        alloc: Global,
        line: &'a UnitLine,
        shut: &[Question],
    ) -> Result<LineAlone<'a>, AllocError>
        requires judged { IsJudged self.now }
        requires shut { shut.now ≡ shut_in self.now }
        ensures same_line { IfOk result (λ one. one.line.now ≡ line.now) }
        ensures is_so { IfOk result (λ one. IsAloneOf self.now one.line.now.place one.alone) }
    {
        let alone = self.alone_of(alloc, line.place, shut)?;
        Ok(LineAlone { line, alone })
    }

    /// What each of these lines denies by itself, in their order.
    pub fn each<'a>(
        &self,
        alloc: Global,
        lines: &'a [UnitLine],
    ) -> Result<Vec<LineAlone<'a>>, AllocError>
        requires judged { IsJudged self.now }
        ensures one_each { IfOk result (λ told. map (λ one. one.line.now) told.items ≡ lines.now) }
        ensures each_is_so { IfOk result (λ told. All (λ one. IsAloneOf self.now one.line.now.place one.alone) told.items) }
    {
        let shut = self.shut_questions(alloc)?;
        let mut told = Vec::new(alloc);
        for line in lines {
            told.push(self.tell(alloc, line, &shut)?)?;
        }
        Ok(told)
    }
}
