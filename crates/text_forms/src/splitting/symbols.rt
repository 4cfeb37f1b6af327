//! Reads escapes: each symbol of a text is a plain byte or an escaped byte.

ghost use Rattle.std.specs.Prelude.{◌≡◌, ◌<◌, length, MatchOption, IfSome, SomeIff, IsTrue};
ghost use Rattle.std.specs.Char.{digit_value};
ghost use Rattle.text_forms.specs.Words.{escape_of, is_hex_digit, symbols_of, with_symbol};

/// A byte of a text.
#[derive(Clone, Copy)]
pub(crate) enum Symbol {
    /// a byte that is no part of an escape
    Plain(u8),
    /// a byte that an escape gives, so that it is no quote and no white space
    Escaped(u8),
}

// returns the byte of the escape with this letter, except for `x`
#[tactic(auto, unfolding(crate::specs::Words::escape_of))]
fn escape_of(letter: u8) -> Option<u8>
    ensures { result ≡ escape_of letter }
{
    match letter {
        b'\\' | b'"' | b'\'' | b' ' => Some(letter),
        b's' => Some(b' '),
        b'n' => Some(b'\n'),
        b't' => Some(b'\t'),
        _ => None,
    }
}

fn hex_value(digit: u8) -> Option<u8>
    ensures by_digit { SomeIff result (IsTrue (is_hex_digit digit)) (digit_value digit) }
    ensures small { IfSome result (λ value. value < 16) }
{
    match digit {
        b'0'..=b'9' => Some(digit - b'0'),
        b'a'..=b'f' => Some(digit - b'a' + 10),
        b'A'..=b'F' => Some(digit - b'A' + 10),
        _ => None,
    }
}

/// Returns the first symbol and the text after it, or None if its escape is unknown or cut.
#[tactic(auto, unfolding(crate::specs::Words::symbols_of))]
pub(crate) fn first_symbol(text: &[u8]) -> Option<(Symbol, &[u8])>
    requires { 0 < length text.now }
    ensures first { MatchOption result (symbols_of text.now ≡ None)
        (λ taken. symbols_of text.now ≡ with_symbol taken.0 (symbols_of taken.1.now)) }
    ensures shorter { IfSome result (λ taken. length taken.1.now < length text.now) }
{
    let (first, rest) = text.split_first()?;
    if *first != b'\\' {
        return Some((Symbol::Plain(*first), rest));
    }
    let (letter, rest) = rest.split_first()?;
    if *letter != b'x' {
        return Some((Symbol::Escaped(escape_of(*letter)?), rest));
    }
    let (high, rest) = rest.split_first()?;
    let (low, rest) = rest.split_first()?;
    Some((
        Symbol::Escaped(hex_value(*high)? * 16 + hex_value(*low)?),
        rest,
    ))
}
