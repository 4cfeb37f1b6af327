//! Reads a question as it is printed.
ghost use Rattle.std.specs.Prelude.{IfOk};
ghost use Rattle.report_text.specs.call_table.Table.{Table};
ghost use Rattle.report_text.specs.site_table.Table.{Site};
ghost use Rattle.question_text.specs.Printed.{ArePrinted, Reads};

use crate::printed::{PrintedQuestion, print_questions};
use report_text::{CallTable, Question, SiteTable};
use std::alloc::{AllocError, Global};

/// Returns the question that is printed so among all printed ones, without a line feed, if there is one.
pub fn find_question(printed: &[PrintedQuestion], text: &[u8]) -> Option<Question>
    ensures reads { (table : Table) (site : Site) → ArePrinted table site printed.now → Reads table site text.now result }
{
    for one in printed {
        if one.text.as_slice() == text {
            return Some(one.question);
        }
    }
    None
}

/// Returns the question of the list of a table of calls and a site that is printed so, without a line feed, if there
/// is one.
///
/// The call fails only if memory runs out.
pub fn read_question(
    alloc: Global,
    calls: &CallTable,
    site: &SiteTable,
    text: &[u8],
) -> Result<Option<Question>, AllocError>
    ensures reads { IfOk result (Reads calls.now site.now text.now) }
{
    let printed = print_questions(alloc, calls, site)?;
    Ok(find_question(printed.as_slice(), text))
}
