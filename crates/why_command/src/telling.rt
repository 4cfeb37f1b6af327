//! The text for a denied question.
ghost use Rattle.std.specs.Prelude.{◌≡◌, ◌++◌, Contains, IfOk};
ghost use Rattle.why_command.specs.deciding_lines.Deciding.{IsReason};
ghost use Rattle.asked_service.specs.kernel_laws.Questions.{questions};
ghost use Rattle.asked_service.specs.kernel_laws.declared.question_types.verdict.Verdict.TheVariants as verdict;
ghost use Rattle.asked_service.specs.report_text.Answers.{verdict_line};
ghost use Rattle.why_command.specs.Lines.{reason_text};

use crate::deciding_lines::Reason;
use crate::lines::lines_text;
use asked_service::{CallTable, Question, Resolved, SiteTable, Verdict, verdict_line};
use std::alloc::{AllocError, Global};

// What denies it.
fn reason_text(alloc: Global, unit: &Resolved, reason: &Reason) -> Result<Vec<u8>, AllocError>
    ensures { IfOk result (λ text. text.items ≡ reason_text unit.now reason.now) }
{
    match reason {
        Reason::Nothing => b"nothing\n".to_vec(alloc),
        Reason::Lines(places) => lines_text(alloc, unit, places),
        Reason::NotLaunched(line) => {
            let mut text = b"without ".to_vec(alloc)?;
            text.extend_from_slice(line)?;
            Ok(text)
        }
    }
}

/// A question that is denied, above what denies it.
pub fn denied_text(
    alloc: Global,
    question: &Question,
    unit: &Resolved,
    reason: &Reason,
    calls: &CallTable,
    site: &SiteTable,
) -> Result<Vec<u8>, AllocError>
    requires asked { Contains (questions calls.now site.now) question.now }
    ensures verdict_and_reason { IfOk result (λ text. text.items ≡ verdict_line calls.now site.now question.now verdict.Denied ++ reason_text unit.now reason.now) }
{
    let mut text = verdict_line(alloc, question, Verdict::Denied, calls, site)?;
    let told = reason_text(alloc, unit, reason)?;
    text.extend_from_slice(&told)?;
    Ok(text)
}
