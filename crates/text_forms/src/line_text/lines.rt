//! Reads the lines that count, and their words.

ghost use Rattle.std.specs.Prelude.{◌≡◌, ◌==◌, IfOk, map};
ghost use Rattle.std.specs.List.{slice_split};
ghost use Rattle.text_forms.specs.line_text.Lines.{is_skipped, counted_from, lines_of, words_of};
ghost use Rattle.text_forms.specs.line_text.Views.{line_view};

use std::alloc::{AllocError, Global};

/// A line of a text that is not skipped.
#[derive(Clone, Copy)]
pub struct Line<'a> {
    /// The number of the line, from 1.
    pub number: u64,
    /// The line without its LF.
    pub text: &'a str,
}

fn is_skipped(text: &str) -> bool
    ensures { result ≡ is_skipped text.now }
{
    match text.as_bytes() {
        [] => true,
        [byte, ..] => *byte == b'#',
    }
}

fn all_lines(alloc: Global, text: &str) -> Result<Vec<&str>, AllocError>
    ensures { IfOk result (λ lines. map (λ line. line.now) lines.items ≡ slice_split (λ byte. byte == 10) text.now) }
{
    text.split('\n').collect(alloc)
}

fn counted_lines<'a>(alloc: Global, texts: &[&'a str]) -> Result<Vec<Line<'a>>, AllocError>
    ensures { IfOk result (λ lines. map line_view lines.items ≡ counted_from 1 (map (λ text. text.now) texts.now)) }
{
    let mut lines = Vec::new(alloc);
    for (at, text) in texts.iter().enumerate() {
        if !is_skipped(text) {
            lines.push(Line {
                number: at as u64 + 1,
                text,
            })?;
        }
    }
    Ok(lines)
}

/// Returns the lines of a text that are not skipped: they are not empty and do not begin with `#`.
pub fn read_lines(alloc: Global, text: &str) -> Result<Vec<Line<'_>>, AllocError>
    ensures counted { IfOk result (λ lines. map line_view lines.items ≡ lines_of text.now) }
{
    let texts = all_lines(alloc, text)?;
    counted_lines(alloc, texts.as_slice())
}

/// Returns the words of a line, which spaces separate.
pub fn words(alloc: Global, line: &str) -> Result<Vec<&str>, AllocError>
    ensures between_spaces { IfOk result (λ words. map (λ word. word.now) words.items ≡ words_of line.now) }
{
    line.split(' ')
        .filter(|word| !word.is_empty())
        .collect(alloc)
}
