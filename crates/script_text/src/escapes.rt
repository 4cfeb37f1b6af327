//! Escaped words, read back.

ghost use Rattle.std.specs.Prelude.{◌≡◌, ◌<◌, ◌≤◌, length, IfSome, IfOk, SomeIff, IsTrue, option_map, string_bytes};
ghost use Rattle.std.specs.Char.{is_digit, digit_value};
ghost use Rattle.kernel_model.specs.text_forms.Escaped.{word_read};
ghost use Rattle.script_text.specs.Escapes.{GivesByte, GivesCode, escaped_text, text_only};

use std::alloc::{AllocError, Global};

// the value of a hex digit of either case
fn hex_value(digit: u8) -> Option<u8>
    ensures by_digit { SomeIff result (IsTrue (is_digit digit 16)) (digit_value digit) }
    ensures small { IfSome result (λ value. value < 16) }
{
    match digit {
        b'0'..=b'9' => Some(digit - b'0'),
        b'a'..=b'f' => Some(digit - b'a' + 10),
        b'A'..=b'F' => Some(digit - b'A' + 10),
        _ => None,
    }
}

// the byte that the two digits after a `%` write, and the word after them
fn coded_byte(word: &[u8]) -> Option<(u8, &[u8])>
    ensures code { GivesCode word.now result }
    ensures shorter { IfSome result (λ taken. length taken.1.now ≤ length word.now) }
{
    let (high, rest) = word.split_first()?;
    let (low, rest) = rest.split_first()?;
    Some((hex_value(*high)? * 16 + hex_value(*low)?, rest))
}

// the first byte that an escaped word encodes, and the rest of the word
fn first_byte(word: &[u8]) -> Option<(u8, &[u8])>
    requires { 0 < length word.now }
    ensures first { GivesByte word.now result }
    ensures shorter { IfSome result (λ taken. length taken.1.now < length word.now) }
{
    let (first, rest) = word.split_first()?;
    if *first == b'%' {
        coded_byte(rest)
    } else {
        Some((*first, rest))
    }
}

// the bytes that an escaped word encodes
fn read_bytes(alloc: Global, word: &[u8]) -> Result<Option<Vec<u8>>, AllocError>
    ensures { IfOk result (λ bytes. option_map (λ bytes. bytes.items) bytes ≡ word_read word.now) }
{
    let mut bytes = Vec::new(alloc);
    let mut left = word;
    while !left.is_empty() {
        let Some((byte, rest)) = first_byte(left) else {
            return Ok(None);
        };
        bytes.push(byte)?;
        left = rest;
    }
    Ok(Some(bytes))
}

// the bytes as a text
fn text_of(bytes: Vec<u8>) -> Option<String>
    ensures { option_map (λ text. string_bytes text) result ≡ text_only bytes.items }
{
    match String::from_utf8(bytes) {
        Ok(text) => Some(text),
        Err(_) => None,
    }
}

/// Returns the text that an escaped word is read as: each `%` with two hex digits of either case is a byte, and any
/// other byte is itself. None if `%` precedes anything else, or if the bytes are not UTF-8.
#[tactic(auto, unfolding(crate::specs::Escapes::escaped_text))]
pub(crate) fn read_text(alloc: Global, word: &str) -> Result<Option<String>, AllocError>
    ensures { IfOk result (λ text. option_map (λ text. string_bytes text) text ≡ escaped_text word.now) }
{
    let Some(bytes) = read_bytes(alloc, word.as_bytes())? else {
        return Ok(None);
    };
    Ok(text_of(bytes))
}
