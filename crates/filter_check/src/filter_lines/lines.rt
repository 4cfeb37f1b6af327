//! Reads lines of sixteen hex digits as bytes.
ghost use Rattle.std.specs.Prelude.{◌≡◌, ◌==◌, ◌*◌, ◌+◌, ◌<◌, ◌^◌, ℕ, IfOk, IfErr, IfNone, IfSome, List, length, map, slice_index, [], ◌∷◌};
ghost use Rattle.std.specs.List.{slice_split};
ghost use Rattle.filter_check.specs.filter_lines.Digits.{hex_byte, hex_digit};
ghost use Rattle.filter_check.specs.filter_lines.Lines.{AreLines, lines_in};
ghost use Rattle.filter_check.specs.filter_lines.Adding.{AddsLine, IsRefusedLine};

use crate::filter_lines::error::FileError;
use std::alloc::{AllocError, Global};

// Returns the number of a lower-case hex digit.
fn digit(byte: u8) -> Option<u8>
    ensures digit { IfSome result (λ n. (n < 16) × (hex_digit n ≡ byte)) }
    ensures other { IfNone result ((n : ℕ) → n < 16 → hex_digit n ≡ byte → ⊥) }
{
    match byte {
        b'0'..=b'9' => Some(byte - b'0'),
        b'a'..=b'f' => Some(byte - b'a' + 10),
        _ => None,
    }
}

// Returns the byte of two hex digits.
fn byte_of(high: u8, low: u8) -> Option<u8>
    ensures byte { IfSome result (λ n. (n < 2 ^ 8) × (hex_byte n ≡ high ∷ low ∷ [])) }
    ensures other { IfNone result ((n : ℕ) → n < 2 ^ 8 → hex_byte n ≡ high ∷ low ∷ [] → ⊥) }
{
    let high = digit(high)?;
    let low = digit(low)?;
    Some(high * 16 + low)
}

// Adds the bytes of a line. Returns whether the line is the digits of an instruction.
fn add_line(out: &mut Vec<u8>, line: &[u8]) -> Result<bool, AllocError>
    ensures { IfOk result (AddsLine line.now out.old.items out.new.items) }
{
    if line.len() != 16 {
        return Ok(false);
    }
    for at in 0..8 {
        match byte_of(line[2 * at], line[2 * at + 1]) {
            Some(byte) => out.push(byte)?,
            None => return Ok(false),
        }
    }
    Ok(true)
}

/// Returns the bytes of the instructions on these lines.
pub fn code_of_lines(alloc: Global, lines: &[&str]) -> Result<Vec<u8>, FileError>
    ensures code { IfOk result (λ code. AreLines (map (λ line. line.now) lines.now) code.items) }
    ensures refused { IfErr result (IsRefusedLine (map (λ line. line.now) lines.now)) }
{
    let mut code = Vec::new(alloc);
    for (at, line) in lines.iter().enumerate() {
        if !add_line(&mut code, line.as_bytes())? {
            return Err(FileError::Digits(at as u64 + 1));
        }
    }
    Ok(code)
}

// Returns the pieces of a text between its line feeds.
fn pieces(alloc: Global, text: &str) -> Result<Vec<&str>, AllocError>
    ensures { IfOk result (λ pieces. map (λ piece. piece.now) pieces.items ≡ slice_split (λ byte. byte == 10) text.now) }
{
    text.split('\n').collect(alloc)
}

/// Returns the lines of a text. Each line ends at a line feed.
pub fn lines_in(alloc: Global, text: &str) -> Result<Vec<&str>, AllocError>
    ensures the_lines { IfOk result (λ lines. map (λ line. line.now) lines.items ≡ lines_in text.now) }
{
    let mut lines = pieces(alloc, text)?;
    lines.pop();
    Ok(lines)
}
