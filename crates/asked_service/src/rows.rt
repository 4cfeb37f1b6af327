//! The verdicts on all questions that are asked of a service.

ghost use Rattle.std.specs.Prelude.{◌≡◌, ◌≤◌, IfOk, length, map};
ghost use Rattle.judge.specs.kernel_laws.Questions.{questions};
ghost use Rattle.asked_service.specs.Asked.{IsBounded};
ghost use Rattle.asked_service.specs.Rows.{AreRows, count_open, rows_of};

use crate::bounding::Bounded;
use judge::openness;
use report_text::Question;
use std::alloc::{AllocError, Global};

/// A question, and whether it is open.
#[derive(Clone, Copy)]
pub struct VerdictRow {
    /// The question.
    pub question: Question,
    /// Whether some calls of the service's processes reach it.
    pub is_open: bool,
}

/// The verdicts on all questions of the tables, in their order.
pub fn verdict_rows(
    alloc: Global,
    bounded: &Bounded<'_>,
    list: &[Question],
) -> Result<Vec<VerdictRow>, AllocError>
    requires bounded { IsBounded bounded.now }
    requires all { list.now ≡ questions bounded.now.service.world.calls bounded.now.service.world.site }
    ensures one_each_and_so { IfOk result (λ rows. AreRows bounded.now.service.world rows.items) }
    ensures by_the_rule { IfOk result (λ rows. rows.items ≡ rows_of bounded.now.service.world list.now) }
{
    // The law says why the verdicts are exact.
    openness();
    let mut rows = Vec::new(alloc);
    for question in list {
        rows.push(VerdictRow {
            question: *question,
            is_open: bounded.is_open(question),
        })?;
    }
    Ok(rows)
}

/// Returns how many of all questions of the tables are open. It takes no memory.
pub fn count_open(bounded: &Bounded<'_>, list: &[Question]) -> usize
    requires bounded { IsBounded bounded.now }
    requires all { list.now ≡ questions bounded.now.service.world.calls bounded.now.service.world.site }
    ensures counts { result ≡ count_open (rows_of bounded.now.service.world list.now) }
    ensures at_most_all { result ≤ length list.now }
{
    let mut open = 0;
    for question in list {
        if bounded.is_open(question) {
            open += 1;
        }
    }
    open
}
