//! Reads a path: it looks at the pieces of the text between the slashes and folds them together.

ghost use Rattle.std.specs.Prelude.{◌≡◌, ◌≤◌, ◌==◌, false, length, not, filter, map, codes, IfOk, string_bytes, nat_eq};
ghost use Rattle.std.specs.List.{list_any, starts_with};
ghost use Rattle.std.specs.Str.{bytes_eq};
ghost use Rattle.abs_path.specs.Paths.{tail_of, pieces_of, is_idle};
ghost use Rattle.abs_path.specs.Plain.{is_plain};
ghost use Rattle.abs_path.specs.Read.{Reads};

use super::{AbsPath, LONGEST};
use crate::error::PathError;
use crate::text::Text;
use std::alloc::{AllocError, Global};

// returns whether a piece is empty or `.`
fn is_idle(piece: &str) -> bool
    ensures { result ≡ is_idle piece.now }
{
    piece == "" || piece == "."
}

// returns the pieces between the slashes
fn pieces<'a>(alloc: Global, text: &'a str) -> Result<Vec<&'a str>, AllocError>
    ensures { IfOk result (λ found. map (λ piece. piece.now) found.items ≡ pieces_of text.now) }
{
    text.split('/').collect(alloc)
}

// joins the pieces that are parts, each after a slash
fn folded(alloc: Global, pieces: &[&str]) -> Result<String, AllocError>
    ensures { IfOk result (λ tail. string_bytes tail
        ≡ tail_of (filter (λ piece. not (is_idle piece)) (map (λ piece. piece.now) pieces.now))) }
{
    let mut tail = String::new(alloc);
    for piece in pieces {
        if !is_idle(piece) {
            tail.push('/')?;
            tail.push_str(piece)?;
        }
    }
    Ok(tail)
}

fn has_nul(text: &str) -> bool
    ensures { result ≡ list_any (λ byte. byte == 0) text.now }
{
    text.as_bytes().contains(&0)
}

fn is_rooted(text: &str) -> bool
    ensures { result ≡ starts_with nat_eq text.now (codes "/") }
{
    text.as_bytes().starts_with(b"/")
}

fn climbs(pieces: &[&str]) -> bool
    ensures { result ≡ list_any (λ piece. bytes_eq piece.now (codes "..")) pieces.now }
{
    pieces.iter().any(|piece| *piece == "..")
}

// returns whether nothing in a text with a slash in front folds away: no byte is NUL, and a byte other than a slash or a dot
// follows each slash
fn is_plain(text: &str) -> bool
    ensures { result ≡ is_plain false text.now }
{
    let mut behind = false;
    for byte in text.as_bytes() {
        if *byte == 0 || (behind && (*byte == b'/' || *byte == b'.')) {
            return false;
        }
        behind = *byte == b'/';
    }
    !behind
}

impl AbsPath {
    /// Returns the parts, beginning at the root.
    pub fn parts(&self, alloc: Global) -> Result<Vec<&str>, AllocError>
        ensures lends_each { IfOk result (λ parts. map (λ part. part.now) parts.items ≡ self.now) }
    {
        self.tail
            .as_str()
            .split('/')
            .filter(|piece| !is_idle(piece))
            .collect(alloc)
    }

    /// Reads a text: repeated slashes, `.` parts and a final slash fold away (path_resolution(7)).
    ///
    /// It returns the first of these faults: TooLong above 512 bytes, HasNul, Relative without a slash in front, and DotDot if a
    /// part is `..`. It may return Memory for any text.
    pub fn read(alloc: Global, text: &str) -> Result<AbsPath, PathError>
        ensures reads_or_first_fault { Reads text.now result }
    {
        if text.len() > LONGEST {
            return Err(PathError::TooLong);
        }
        if is_rooted(text) && is_plain(text) {
            let tail = Text::read(alloc, text)?;
            return Ok(AbsPath { tail });
        }
        AbsPath::read_pieces(alloc, text)
    }

    // reads a text piece by piece
    fn read_pieces(alloc: Global, text: &str) -> Result<AbsPath, PathError>
        requires { length text.now ≤ 512 }
        ensures { Reads text.now result }
    {
        if has_nul(text) {
            return Err(PathError::HasNul);
        }
        if !is_rooted(text) {
            return Err(PathError::Relative);
        }
        let pieces = pieces(alloc, text)?;
        if climbs(&pieces) {
            return Err(PathError::DotDot);
        }
        let tail = Text::of(folded(alloc, &pieces)?)?;
        Ok(AbsPath { tail })
    }
}
