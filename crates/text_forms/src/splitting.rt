//! Splits a text into words, with quotes and escapes (systemd.syntax(7), Quoting).
//!
//! It reads the text symbol by symbol: `symbols` reads escapes, `marks` finds quotes, and each stretch between gaps is a word.

mod marks;
mod symbols;

ghost use Rattle.std.specs.Prelude.{◌≡◌, ◌∷◌, ◌++◌, [], ℕ, List, Some, None, IfOk, OnOk, unwrap_or};
ghost use Rattle.std.specs.List.{cons_option};
ghost use Rattle.text_forms.specs.declared.splitting.symbols.Symbol.{Symbol};
ghost use Rattle.text_forms.specs.Words.{closed_only};
ghost use Rattle.text_forms.specs.Answers.{MakesWords, Splits};
ghost use Rattle.text_forms.specs.SoFar.{begun_bytes, found, comes_to};

use crate::error::WordsError;
use marks::{Mark, mark_of};
use std::alloc::{AllocError, Global};
use symbols::{Symbol, first_symbol};

// A text that has been split up to some symbol.
#[derive(Drop)]
struct SoFar {
    // the open quote, if there is one
    opened: Option<u8>,
    // the bytes of the word that has begun
    begun: Option<Vec<u8>>,
    // the whole words, unless one is not UTF-8
    whole: Option<Vec<String>>,
}

// appends a byte to the word that has begun, or begins a word with it
fn push_part(alloc: Global, begun: &mut Option<Vec<u8>>, byte: u8) -> Result<(), AllocError>
    ensures { OnOk result (begun_bytes begun.new ≡ Some (unwrap_or (begun_bytes begun.old) [] ++ byte ∷ [])) }
{
    begun.get_or_insert(Vec::new(alloc)).push(byte)?;
    Ok(())
}

// adds a word, whose bytes may be no text
fn with_word(whole: Option<Vec<String>>, bytes: Vec<u8>) -> Result<Option<Vec<String>>, AllocError>
    ensures { IfOk result (λ next. (more : List (List ℕ)) → found next more ≡ found whole (bytes.items ∷ more)) }
{
    let Some(mut words) = whole else {
        return Ok(None);
    };
    match String::from_utf8(bytes) {
        Ok(word) => {
            words.push(word)?;
            Ok(Some(words))
        }
        Err(_) => Ok(None),
    }
}

impl SoFar {
    fn nothing(alloc: Global) -> SoFar
        ensures { (symbols : List Symbol) → comes_to result symbols ≡ closed_only symbols }
    {
        SoFar {
            opened: None,
            begun: None,
            whole: Some(Vec::new(alloc)),
        }
    }

    fn end_word(&mut self) -> Result<(), AllocError>
        ensures opened { self.new.opened ≡ self.old.opened }
        ensures ended { OnOk result (self.new.begun ≡ None) }
        ensures whole { OnOk result ((more : List (List ℕ)) → found self.new.whole more ≡ found self.old.whole (cons_option (begun_bytes self.old.begun) more)) }
    {
        if let Some(bytes) = self.begun.take() {
            self.whole = with_word(self.whole.take(), bytes)?;
        }
        Ok(())
    }

    // takes the next symbol
    fn pass(&mut self, alloc: Global, symbol: Symbol) -> Result<(), AllocError>
        ensures { OnOk result ((symbols : List Symbol) → comes_to self.new symbols ≡ comes_to self.old (symbol ∷ symbols)) }
    {
        let (mark, opened) = mark_of(self.opened, symbol);
        self.opened = opened;
        match mark {
            Mark::Part(byte) => push_part(alloc, &mut self.begun, byte),
            Mark::Edge => {
                self.begun.get_or_insert(Vec::new(alloc));
                Ok(())
            }
            Mark::Gap => self.end_word(),
        }
    }

    // returns the words after the last symbol
    fn words(mut self) -> Result<Vec<String>, WordsError>
        ensures { MakesWords (comes_to self []) result }
    {
        if self.opened.is_some() {
            return Err(WordsError::Quote);
        }
        match self.end_word() {
            Ok(()) => self.whole.ok_or(WordsError::NotText),
            Err(_) => Err(WordsError::Memory),
        }
    }
}

/// Splits a text into words at spaces, tabs and carriage returns.
///
/// `'..'` and `".."` quote, also within a word, and `''` is an empty word. A backslash, also within quotes, precedes `\`, `"`,
/// `'`, a space, `s` for a space, `n`, `t` or `x` and two hex digits. Another or a cut escape is Escape. Otherwise a quote that
/// is open at the end is Quote, and otherwise a word that is not UTF-8 is NotText. Any text may end in Memory.
pub fn words(alloc: Global, text: &str) -> Result<Vec<String>, WordsError>
    ensures splits_or_first_fault { Splits text.now result }
{
    let mut so_far = SoFar::nothing(alloc);
    let mut left = text.as_bytes();
    while !left.is_empty() {
        let (symbol, rest) = first_symbol(left).ok_or(WordsError::Escape)?;
        so_far.pass(alloc, symbol).or(Err(WordsError::Memory))?;
        left = rest;
    }
    so_far.words()
}
