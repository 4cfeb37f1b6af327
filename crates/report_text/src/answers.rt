//! The lines for answers to questions and for blind folders, and the count of all questions.
ghost use Rattle.std.specs.Prelude.{◌≡◌, ◌++◌, Contains, IfOk, OnOk, flat_map};
ghost use Rattle.questions.specs.kernel_laws.Questions.{questions};
ghost use Rattle.report_text.specs.Answers.{blind_line, call_line, open_lines, question_line, summary_line, verdict_line, verdict_word};

use crate::wording::push_question;
use abs_path::AbsPath;
use exposure_score::{CallTable, SiteTable, push_word};
use questions::laws::members;
use questions::{Call, Question, Verdict};
use script_text::push_call;
use std::alloc::{AllocError, Global};

fn verdict_word(verdict: Verdict) -> &'static str
    ensures { result.now ≡ verdict_word verdict }
{
    match verdict {
        Verdict::Denied => "denied",
        Verdict::Open => "open",
    }
}

// Appends the line of a question of the list after a word.
fn push_question_line(
    text: &mut Vec<u8>,
    word: &str,
    question: &Question,
    calls: &CallTable,
    site: &SiteTable,
) -> Result<(), AllocError>
    requires asked { Contains (questions calls.now site.now) question.now }
    ensures tells_the_question { OnOk result (text.new.items ≡ text.old.items ++ question_line word.now calls.now site.now question.now) }
{
    // Each question of the list has a thing that it asks about.
    members();
    text.extend_from_slice(word.as_bytes())?;
    text.push(b' ')?;
    push_question(text, question, calls, site)?;
    text.push(b'\n')?;
    Ok(())
}

// The memory that the lines of an answer begin with; most need no more.
const ANSWER_LEN: usize = 128;

/// Returns the line of a question of the list after this word, as a report has it after its verdict.
///
/// The call fails only if memory runs out.
pub fn question_line(
    alloc: Global,
    word: &str,
    question: &Question,
    calls: &CallTable,
    site: &SiteTable,
) -> Result<Vec<u8>, AllocError>
    requires asked { Contains (questions calls.now site.now) question.now }
    ensures tells_the_question { IfOk result (λ line. line.items ≡ question_line word.now calls.now site.now question.now) }
{
    let mut line = Vec::with_capacity(alloc, ANSWER_LEN)?;
    push_question_line(&mut line, word, question, calls, site)?;
    Ok(line)
}

/// Returns the line of a question of the list: the verdict and the question. Rows are named by their paths, and calls
/// and families by their names, each an escaped word. Ids are named by their numbers, and capabilities by the names
/// of capabilities(7).
///
/// The call fails only if memory runs out.
pub fn verdict_line(
    alloc: Global,
    question: &Question,
    verdict: Verdict,
    calls: &CallTable,
    site: &SiteTable,
) -> Result<Vec<u8>, AllocError>
    requires asked { Contains (questions calls.now site.now) question.now }
    ensures tells_the_verdict { IfOk result (λ line. line.items ≡ verdict_line calls.now site.now question.now verdict) }
{
    question_line(alloc, verdict_word(verdict), question, calls, site)
}

// Appends the line of a call.
fn push_call_line(
    alloc: Global,
    text: &mut Vec<u8>,
    call: &Call,
    calls: &CallTable,
) -> Result<(), AllocError>
    ensures tells_the_call { OnOk result (text.new.items ≡ text.old.items ++ call_line calls.now call.now) }
{
    text.extend_from_slice(b"  ")?;
    push_call(alloc, text, call, calls)?;
    text.push(b'\n')?;
    Ok(())
}

/// Appends the lines of these calls, as they are below an open question: two spaces each, and the call as a script
/// has it.
pub fn push_call_lines(
    alloc: Global,
    text: &mut Vec<u8>,
    list: &[Call],
    calls: &CallTable,
) -> Result<(), AllocError>
    ensures tells_the_calls { OnOk result (text.new.items ≡ text.old.items ++ flat_map (call_line calls.now) list.now) }
{
    for call in list {
        push_call_line(alloc, text, call, calls)?;
    }
    Ok(())
}

/// Returns the lines of an open question of the list: the verdict, and below it these calls.
pub fn open_lines(
    alloc: Global,
    question: &Question,
    list: &[Call],
    calls: &CallTable,
    site: &SiteTable,
) -> Result<Vec<u8>, AllocError>
    requires asked { Contains (questions calls.now site.now) question.now }
    ensures verdict_and_calls { IfOk result (λ text. text.items ≡ open_lines calls.now site.now question.now list.now) }
{
    let mut text = verdict_line(alloc, question, Verdict::Open, calls, site)?;
    push_call_lines(alloc, &mut text, list, calls)?;
    Ok(text)
}

/// Appends the line of a folder that is blind.
pub fn push_blind_line(text: &mut Vec<u8>, folder: &AbsPath) -> Result<(), AllocError>
    ensures names_the_folder { OnOk result (text.new.items ≡ text.old.items ++ blind_line folder.now) }
{
    text.extend_from_slice(b"blind ")?;
    push_word(text, folder.text())?;
    text.push(b'\n')?;
    Ok(())
}

/// Returns the last line of a report: how many questions are denied, and how many open.
pub fn summary_line(alloc: Global, denied: usize, reachable: usize) -> Result<Vec<u8>, AllocError>
    ensures counts { IfOk result (λ line. line.items ≡ summary_line denied reachable) }
{
    Ok(format!(in alloc; "summary denied {denied} open {reachable}\n")?.into_bytes())
}
