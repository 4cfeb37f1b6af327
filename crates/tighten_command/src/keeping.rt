//! The questions that are to be kept, one a line.
ghost use Rattle.std.specs.Prelude.{◌≡◌, map};
ghost use Rattle.asked_service.specs.text_forms.line_text.Views.{line_view};
ghost use Rattle.tighten_command.specs.Keeping.{ReadsKeep, ReadsLines};
ghost use Rattle.tighten_command.specs.declared.keeping.KeepError.TheVariants.{Memory};

use crate::tightening::Questions;
use asked_service::{CallTable, Line, SiteTable, read_lines, read_text};
use question_text::{find_question, print_questions};
use std::alloc::{AllocError, AllocFailed, Global};

/// The most questions that are to be kept.
const MOST_QUESTIONS: usize = 512;

/// Why the questions of a file are refused.
#[derive(Clone, Copy)]
pub enum KeepError {
    /// The bytes are not text.
    NotText,
    /// The line of this number, from 1, is the first that is not a question of the list.
    Line(u64),
    /// There are more than 512 questions before any other line.
    TooMany,
    /// Memory ran out.
    Memory,
}

impl From<AllocError> for KeepError {
    ghost from_gives = { λ _ e. e ≡ Memory };

    fn from(_: AllocError) -> Self {
        KeepError::Memory
    }
}

impl<T: Drop> From<AllocFailed<T>> for KeepError {
    ghost from_gives = { λ _ e. e ≡ Memory };

    fn from(_: AllocFailed<T>) -> Self {
        KeepError::Memory
    }
}

// The questions of lines: each line is what is printed of one, and there are at most 512.
fn keep_of_lines(
    alloc: Global,
    lines: &[Line],
    calls: &CallTable,
    site: &SiteTable,
) -> Result<Questions, KeepError>
    ensures reads { ReadsLines calls.now site.now (map line_view lines.now) result }
{
    let printed = print_questions(alloc, calls, site)?;
    let mut keep = Vec::new(alloc);
    for line in lines {
        let Some(question) = find_question(printed.as_slice(), line.text.as_bytes()) else {
            return Err(KeepError::Line(line.number));
        };
        if keep.len() == MOST_QUESTIONS {
            return Err(KeepError::TooMany);
        }
        keep.push(question)?;
    }
    Ok(Questions::new(keep))
}

/// Reads the questions from the bytes of a file, one a line, as a report has them after a verdict. Empty lines and lines that
/// begin with `#` are skipped.
pub fn read_questions(
    alloc: Global,
    bytes: &[u8],
    calls: &CallTable,
    site: &SiteTable,
) -> Result<Questions, KeepError>
    ensures reads { ReadsKeep calls.now site.now bytes.now result }
{
    let Some(text) = read_text(bytes) else {
        return Err(KeepError::NotText);
    };
    let lines = read_lines(alloc, text)?;
    keep_of_lines(alloc, lines.as_slice(), calls, site)
}
