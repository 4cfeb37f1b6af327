//! The lines of `why` and a unit alone.
ghost use Rattle.std.specs.Prelude.{◌≡◌, ◌++◌, Contains, IfOk, OnOk, codes, count_by, flat_map};
ghost use Rattle.std.specs.List.{All};
ghost use Rattle.asked_service.specs.report_text.Answers.{question_line};
ghost use Rattle.asked_service.specs.kernel_laws.Questions.{questions};
ghost use Rattle.why_command.specs.lines_command.Lines.{IsListed, alone_words, counts_line, counts_text, is_idle, line_told, lines_text, opened_lines};

use crate::opening_lines::{Alone, LineAlone};
use crate::push_assignment;
use asked_service::{CallTable, Question, Resolved, SiteTable, UnitFile, question_line};
use std::alloc::{AllocError, Global};

// The words after an assignment: how many questions it opens, or that it is needed.
fn alone_words(alloc: Global, alone: &Alone) -> Result<Vec<u8>, AllocError>
    ensures { IfOk result (λ words. words.items ≡ alone_words alone.now) }
{
    match alone {
        Alone::Opens(opened) => {
            let count = opened.len();
            Ok(format!(in alloc; " opens {count}\n")?.into_bytes())
        }
        Alone::Needed => b" needed\n".to_vec(alloc),
    }
}

// Appends the line of a newly open question.
fn push_question(
    alloc: Global,
    text: &mut Vec<u8>,
    question: &Question,
    calls: &CallTable,
    site: &SiteTable,
) -> Result<(), AllocError>
    requires asked { Contains (questions calls.now site.now) question.now }
    ensures { OnOk result (text.new.items ≡ text.old.items ++ question_line (codes "opened") calls.now site.now question.now) }
{
    let line = question_line(alloc, "opened", question, calls, site)?;
    text.extend_from_slice(line.as_slice())?;
    Ok(())
}

// Appends the lines of newly open questions, in their order.
fn push_questions(
    alloc: Global,
    text: &mut Vec<u8>,
    opened: &[Question],
    calls: &CallTable,
    site: &SiteTable,
) -> Result<(), AllocError>
    requires asked { All (Contains (questions calls.now site.now)) opened.now }
    ensures { OnOk result (text.new.items ≡ text.old.items ++ flat_map (question_line (codes "opened") calls.now site.now) opened.now) }
{
    for question in opened {
        push_question(alloc, text, question, calls, site)?;
    }
    Ok(())
}

// Appends what a line opens.
fn push_opened(
    alloc: Global,
    text: &mut Vec<u8>,
    alone: &Alone,
    calls: &CallTable,
    site: &SiteTable,
) -> Result<(), AllocError>
    requires listed { IsListed calls.now site.now alone.now }
    ensures { OnOk result (text.new.items ≡ text.old.items ++ opened_lines calls.now site.now alone.now) }
{
    match alone {
        Alone::Opens(opened) => push_questions(alloc, text, opened.as_slice(), calls, site),
        Alone::Needed => Ok(()),
    }
}

// Appends an assignment, and below it what it opens.
fn push_line(
    alloc: Global,
    text: &mut Vec<u8>,
    files: &[UnitFile],
    one: &LineAlone<'_>,
    calls: &CallTable,
    site: &SiteTable,
) -> Result<(), AllocError>
    requires listed { IsListed calls.now site.now one.now.alone }
    ensures { OnOk result (text.new.items ≡ text.old.items ++ line_told calls.now site.now files.now one.now) }
{
    text.extend_from_slice(b"line ")?;
    push_assignment(alloc, text, files, one.line)?;
    let words = alone_words(alloc, &one.alone)?;
    text.extend_from_slice(words.as_slice())?;
    push_opened(alloc, text, &one.alone, calls, site)?;
    Ok(())
}

// Whether it opens nothing by itself.
fn is_idle(alone: &Alone) -> bool
    ensures { result ≡ is_idle alone.now }
{
    match alone {
        Alone::Opens(opened) => opened.is_empty(),
        Alone::Needed => false,
    }
}

// How many of them do not.
fn count_idle(told: &[LineAlone<'_>]) -> usize
    ensures { result ≡ count_by (λ one. is_idle one.alone) told.now }
{
    told.iter().filter(|one| is_idle(&one.alone)).count()
}

// The last line: how many there are, and how many of them open nothing by themselves.
fn counts_line(alloc: Global, all: usize, idle: usize) -> Result<Vec<u8>, AllocError>
    ensures { IfOk result (λ line. line.items ≡ counts_text all idle) }
{
    Ok(format!(in alloc; "lines {all} idle {idle}\n")?.into_bytes())
}

/// Makes the text of a unit's assignments in force, in order, with what each denies by itself, and their counts.
pub fn lines_text(
    alloc: Global,
    unit: &Resolved,
    told: &[LineAlone<'_>],
    calls: &CallTable,
    site: &SiteTable,
) -> Result<Vec<u8>, AllocError>
    requires listed { All (λ one. IsListed calls.now site.now one.alone) told.now }
    ensures tells_all { IfOk result (λ text. text.items ≡ lines_text calls.now site.now unit.now.files told.now) }
{
    let mut text = Vec::new(alloc);
    for one in told {
        push_line(alloc, &mut text, unit.files.list(), one, calls, site)?;
    }
    let counts = counts_line(alloc, told.len(), count_idle(told))?;
    text.extend_from_slice(counts.as_slice())?;
    Ok(text)
}
