//! The question that the words ask.
ghost use Rattle.std.specs.Prelude.{◌≡◌, ◌++◌, Contains, IfOk, IsErrOf, OnOk, flat_map, map};
ghost use Rattle.asked_service.specs.unit_inputs.command_answers.CommandErrors.{IsAnswer};
ghost use Rattle.asked_service.specs.kernel_laws.Questions.{questions};
ghost use Rattle.why_command.specs.Asking.{joined_words, question_in, refused_question, spaced};

use asked_service::{CallTable, CommandError, Question, SiteTable, refuse};
use question_text::read_question;
use std::alloc::{AllocError, Global};

// Appends a space and a word.
fn push_word(text: &mut Vec<u8>, word: &str) -> Result<(), AllocError>
    ensures { OnOk result (text.new.items ≡ text.old.items ++ spaced word.now) }
{
    text.push(b' ')?;
    text.extend_from_slice(word.as_bytes())?;
    Ok(())
}

// Appends words, with a space before each.
fn push_words(text: &mut Vec<u8>, words: &[&str]) -> Result<(), AllocError>
    ensures { OnOk result (text.new.items ≡ text.old.items ++ flat_map (λ word. spaced word.now) words.now) }
{
    for word in words {
        push_word(text, word)?;
    }
    Ok(())
}

// A word by itself.
fn word_text(alloc: Global, word: &str) -> Result<Vec<u8>, AllocError>
    ensures { IfOk result (λ text. text.items ≡ word.now) }
{
    word.as_bytes().to_vec(alloc)
}

// Words, with a space before each but the first.
fn joined_words(alloc: Global, words: &[&str]) -> Result<Vec<u8>, AllocError>
    ensures { IfOk result (λ text. text.items ≡ joined_words (map (λ word. word.now) words.now)) }
{
    let Some((first, rest)) = words.split_first() else {
        return Ok(Vec::new(alloc));
    };
    let mut text = word_text(alloc, first)?;
    push_words(&mut text, rest)?;
    Ok(text)
}

// The line of words that ask no question of the tables.
fn refused_question(alloc: Global) -> Result<Vec<u8>, AllocError>
    ensures { IfOk result (λ line. line.items ≡ refused_question) }
{
    b"refused question\n".to_vec(alloc)
}

/// The question of the tables that the words ask, or the line of their refusal.
pub fn asked_question(
    alloc: Global,
    words: &[&str],
    calls: &CallTable,
    site: &SiteTable,
) -> Result<Question, CommandError>
    ensures asks { IsAnswer (λ question. question) result (question_in calls.now site.now (map (λ word. word.now) words.now)) }
    ensures listed { IfOk result (λ question. Contains (questions calls.now site.now) question) }
    ensures reads_nothing { IsErrOf result CommandError.ReadFault → ⊥ }
{
    let text = joined_words(alloc, words)?;
    match read_question(alloc, calls, site, &text)? {
        Some(question) => Ok(question),
        None => Err(refuse(refused_question(alloc))),
    }
}
