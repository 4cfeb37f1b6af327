//! Finds quotes, and the symbols of a text that are parts of words.

ghost use Rattle.std.specs.Prelude.{◌≡◌};
ghost use Rattle.text_forms.specs.Words.{is_white, is_quote, mark_of, open_after};

use super::symbols::Symbol;

/// The role of a symbol in the list of words.
#[derive(Clone, Copy)]
pub(crate) enum Mark {
    /// a byte of a word
    Part(u8),
    /// a quote that opens or closes a part of a word
    Edge,
    /// white space between words
    Gap,
}

fn is_white(byte: u8) -> bool
    ensures { result ≡ is_white byte }
{
    byte == b' ' || byte == b'\t' || byte == b'\r'
}

fn is_quote(byte: u8) -> bool
    ensures { result ≡ is_quote byte }
{
    byte == b'"' || byte == b'\''
}

/// Returns the mark of a symbol while this quote is open, and the quote that is open after it. None means no open quote.
#[tactic(auto, unfolding(crate::specs::Words::mark_of, crate::specs::Words::open_after))]
pub(crate) fn mark_of(opened: Option<u8>, symbol: Symbol) -> (Mark, Option<u8>)
    ensures mark { result.0 ≡ mark_of opened symbol }
    ensures open_behind { result.1 ≡ open_after opened symbol }
{
    match (symbol, opened) {
        (Symbol::Plain(byte), None) if is_white(byte) => (Mark::Gap, None),
        (Symbol::Plain(byte), None) if is_quote(byte) => (Mark::Edge, Some(byte)),
        (Symbol::Plain(byte), Some(quote)) if byte == quote => (Mark::Edge, None),
        (Symbol::Plain(byte) | Symbol::Escaped(byte), _) => (Mark::Part(byte), opened),
    }
}
