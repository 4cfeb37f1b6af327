//! Prints all questions of a table of calls and a site.
ghost use Rattle.std.specs.Prelude.{◌≡◌, ◌∷◌, ◌++◌, [], ℕ, List, Contains, IfOk, codes, map};
ghost use Rattle.std.specs.List.{All};
ghost use Rattle.report_text.specs.kernel_laws.Questions.{questions};
ghost use Rattle.report_text.specs.Wording.{question_words};
ghost use Rattle.question_text.specs.Printed.{ArePrinted, IsPrinted};

use crate::laws::one_reading;
use report_text::{CallTable, Question, SiteTable, Verdict, questions, verdict_line};
use std::alloc::{AllocError, Global};

/// A question, with the text that a report prints after its verdict.
#[derive(Drop)]
pub struct PrintedQuestion {
    pub question: Question,
    pub text: Vec<u8>,
}

// Returns the text of a line after its verdict, without the line feed.
fn behind_verdict(alloc: Global, line: &[u8]) -> Result<Vec<u8>, AllocError>
    requires begins { (words : List ℕ) × (line.now ≡ codes "denied" ++ (codes " " ++ (words ++ 10 ∷ []))) }
    ensures { (words : List ℕ) → line.now ≡ codes "denied" ++ (codes " " ++ (words ++ 10 ∷ [])) → IfOk result (λ text. text.items ≡ words) }
{
    line["denied ".len()..line.len() - 1].to_vec(alloc)
}

// A question of the list, as it is printed.
fn print_question(
    alloc: Global,
    question: &Question,
    calls: &CallTable,
    site: &SiteTable,
) -> Result<PrintedQuestion, AllocError>
    requires asked { Contains (questions calls.now site.now) question.now }
    ensures { IfOk result (IsPrinted calls.now site.now question.now) }
{
    let line = verdict_line(alloc, question, Verdict::Denied, calls, site)?;
    let text = behind_verdict(alloc, line.as_slice())?;
    Ok(PrintedQuestion {
        question: *question,
        text,
    })
}

// Questions of the list, as they are printed.
fn print_list(
    alloc: Global,
    list: &[Question],
    calls: &CallTable,
    site: &SiteTable,
) -> Result<Vec<PrintedQuestion>, AllocError>
    requires asked { All (λ question. Contains (questions calls.now site.now) question) list.now }
    ensures in_order { IfOk result (λ printed. map (λ one. one.question) printed.items ≡ list.now) }
    ensures texts { IfOk result (λ printed. map (λ one. one.text.items) printed.items ≡ map (λ question. question_words calls.now site.now question) list.now) }
{
    let mut printed = Vec::new(alloc);
    for question in list {
        printed.push(print_question(alloc, question, calls, site)?)?;
    }
    Ok(printed)
}

/// Prints the questions of a table of calls and a site, in the order of the list.
///
/// The call fails only if memory runs out.
pub fn print_questions(
    alloc: Global,
    calls: &CallTable,
    site: &SiteTable,
) -> Result<Vec<PrintedQuestion>, AllocError>
    ensures prints_the_list { IfOk result (λ printed. ArePrinted calls.now site.now printed.items) }
{
    // The law says why no two are printed alike.
    one_reading(calls, site);
    let list = questions(alloc, calls, site)?;
    print_list(alloc, list.as_slice(), calls, site)
}
