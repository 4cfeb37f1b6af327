//! Reads the words of a row.
use hex::decode;
use std::alloc::{AllocError, Global};

/// Returns the words of a row, between its bars.
pub fn words(alloc: Global, row: &str) -> Result<Vec<&str>, AllocError> {
    row.split('|').collect(alloc)
}

/// Returns the text of a word: `\n`, `\r`, `\t`, `\0` and `\\` have their meaning in Rust, and `\d` is DEL. A backslash
/// before any other character is left out.
pub fn text_of(alloc: Global, word: &str) -> Result<String, AllocError> {
    let mut text = String::new(alloc);
    let mut is_escaped = false;
    for letter in word.chars() {
        if is_escaped {
            text.push(escaped(letter))?;
            is_escaped = false;
        } else if letter == '\\' {
            is_escaped = true;
        } else {
            text.push(letter)?;
        }
    }
    Ok(text)
}

/// Returns the bytes of words in hex, which spaces separate. A word that is not in hex has none.
pub fn bytes_of(alloc: Global, words: &str) -> Result<Vec<u8>, AllocError> {
    let mut bytes = Vec::new(alloc);
    for word in words.split(' ') {
        if let Ok(more) = decode(alloc, word) {
            bytes.extend_from_slice(more.as_slice())?;
        }
    }
    Ok(bytes)
}

fn escaped(letter: char) -> char {
    match letter {
        'n' => '\n',
        'r' => '\r',
        't' => '\t',
        '0' => '\0',
        'd' => '\u{7f}',
        other => other,
    }
}

/// Returns the number of a word in decimal, or in hex after `0x`. It is 0 for any other word.
pub fn number(word: &str) -> u64 {
    match word.strip_prefix("0x") {
        Some(digits) => u64::from_str_radix(digits, 16).unwrap_or(0),
        None => word.parse::<u64>().unwrap_or(0),
    }
}

/// Returns the low 32 bits of the number of a word.
pub fn number32(word: &str) -> u32 {
    (number(word) & 0xffff_ffff) as u32
}

/// Copies the text.
pub fn said(alloc: Global, text: &str) -> Result<String, AllocError> {
    String::from_str(alloc, text)
}
