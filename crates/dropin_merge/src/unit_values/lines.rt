//! Reads lines of words. A line that begins with `~` is inverted (systemd.exec(5), SystemCallFilter=).
ghost use Rattle.std.specs.Prelude.{◌≡◌, ◌++◌, [], false, IfOk, OnOk, map, unwrap_or};
ghost use Rattle.std.specs.String.{string_bytes};
ghost use Rattle.std.specs.Option.{option_map};
ghost use Rattle.unit_grammar.specs.text_forms.Words.{words_of};
ghost use Rattle.unit_grammar.specs.Kinds.{behind};
ghost use Rattle.dropin_merge.specs.unit_values.Lines.{tilde, words_if, line_of};

use std::alloc::{AllocError, Global};
use unit_grammar::{ItemList, Text, WordsError, words};

/// Words, which contracts see as a list of texts.
pub type Words = ItemList<Text>;

/// A line of a list.
#[derive(Drop)]
pub struct Line {
    /// Whether it begins with `~`.
    pub is_inverted: bool,
    /// Its words, without the `~`.
    pub words: Words,
}

impl Line {
    // Returns the line without words.
    pub(crate) fn empty(alloc: Global) -> Line
        ensures { result ≡ record { is_inverted = false; words = [] } }
    {
        Line {
            is_inverted: false,
            words: Words::empty(alloc),
        }
    }
}

fn behind_tilde(text: &str) -> Option<&str>
    ensures { option_map (λ rest. rest.now) result ≡ behind tilde text.now }
{
    text.strip_prefix('~')
}

fn texts(alloc: Global, words: Vec<String>) -> Result<Vec<Text>, AllocError>
    ensures { IfOk result (λ texts. texts.items ≡ map string_bytes words.items) }
{
    let mut texts = Vec::new(alloc);
    for word in words {
        texts.push(Text::from(word))?;
    }
    Ok(texts)
}

/// Returns the words of a value, if it can be split (systemd.syntax(7), Quoting).
pub fn read_words(alloc: Global, text: &str) -> Result<Option<Words>, AllocError>
    ensures splits_where_it_can { IfOk result (λ words. words ≡ words_if (words_of text.now)) }
{
    match words(alloc, text) {
        Ok(found) => Ok(Some(Words::new(texts(alloc, found)?))),
        Err(WordsError::Memory) => Err(AllocError),
        Err(_) => Ok(None),
    }
}

// Returns the line of these words, if there are any.
fn line_of_words(is_inverted: bool, words: Option<Words>) -> Option<Line>
    ensures { result ≡ option_map (λ words. record { is_inverted = is_inverted; words = words }) words }
{
    match words {
        Some(words) => Some(Line { is_inverted, words }),
        None => None,
    }
}

/// Returns the line of a value, if it can be split into words.
#[tactic(auto, unfolding(crate::specs::unit_values::Lines::line_of))]
pub fn read_line(alloc: Global, text: &str) -> Result<Option<Line>, AllocError>
    ensures splits_behind_the_tilde { IfOk result (λ line. line ≡ line_of text.now) }
{
    match behind_tilde(text) {
        Some(rest) => Ok(line_of_words(true, read_words(alloc, rest)?)),
        None => Ok(line_of_words(false, read_words(alloc, text)?)),
    }
}
