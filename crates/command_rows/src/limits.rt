//! Runs rows with the limits and faults of runs: reads and writes that fail, inputs at their limits, and texts that
//! are cut off.
//!
//! Lines make files as in rows of whole runs, and later rows keep these files. `comment N` and `blanks N` fill a file
//! with `#` and with spaces until it has N bytes. `files N PATH TEXT` makes so many files of one line, and replaces
//! each `#` in their paths by the number of the file. `no-files FRONT` removes the files whose paths begin so.
//!
//! A row is printed, and its result below it:
//! - `run WORD ..` prints the status and the text of a run of these words.
//! - `last N WORD ..` prints the number of its lines and the last of them.
//! - `reads N WORD ..` lets each of the calls 1 to N of the shelf fail in turn. It prints the status for each, and
//!   how much of the text of a run without faults was taken.
//! - `puts TAKE N WORD ..` does the same with the puts to a sink that takes so many bytes at once.
//! - `prefixes PATH WORD ..` runs the words over each prefix of the file, by its length in bytes. It prints the
//!   status and the line, or of several lines the last.
//!
//! Neighbours with the same result are printed together.

mod spans;

use crate::files::Files;
use crate::limits::spans::Spans;
use crate::runs::{Faults, Printed, run_over};
use row_tools::{Follow, Shown, number, said};
use std::alloc::{AllocError, Global};
use std::io;

/// How much a sink takes at once where no row says so.
const TAKE: u64 = 1000;

/// The files that rows have made.
#[derive(Drop)]
pub struct Rows {
    files: Files,
}

impl Rows {
    /// No files.
    pub fn new(alloc: Global) -> Self {
        Rows {
            files: Files::new(alloc),
        }
    }
}

impl Follow for Rows {
    fn follow(&mut self, alloc: Global, line: &str) -> io::Result<Shown> {
        let words: Vec<&str> = line.split(' ').collect(alloc)?;
        let told = match words.as_slice() {
            ["run", words @ ..] => whole(alloc, &self.files, words),
            ["last", count, words @ ..] => last(alloc, &self.files, number(count), words),
            ["reads", count, words @ ..] => {
                in_turn(alloc, &self.files, None, number(count), words)
            }
            ["puts", take, count, words @ ..] => {
                in_turn(alloc, &self.files, Some(number(take)), number(count), words)
            }
            ["prefixes", path, words @ ..] => prefixes(alloc, &self.files, path, words),
            _ => {
                self.files.follow(alloc, line)?;
                return Ok(Shown::Nothing);
            }
        }?;
        Ok(Shown::Text(format!(in alloc; "{line}\n{told}")?))
    }
}

// A run without faults.
fn faultless(alloc: Global, files: &Files, words: &[&str]) -> Result<Printed, AllocError> {
    let files = files.copied(alloc)?;
    run_over(alloc, files, words, &Faults::none(alloc, TAKE))
}

// The status, and the text with a sign where it does not end with a line feed.
fn whole(alloc: Global, files: &Files, words: &[&str]) -> Result<String, AllocError> {
    let printed = faultless(alloc, files, words)?;
    let code = printed.code;
    let text = printed.text.as_str();
    match text.strip_suffix('\n') {
        Some(line) => format!(in alloc; "-> {code}\n{line}"),
        None => format!(in alloc; "-> {code} (cut)\n{text}"),
    }
}

// The status, how many lines there are, and the last of them.
fn last(alloc: Global, files: &Files, count: u64, words: &[&str]) -> Result<String, AllocError> {
    let printed = faultless(alloc, files, words)?;
    let total = printed.text.as_str().lines().count() as u64;
    let mut text = format!(in alloc; "-> {}, {total} lines", printed.code)?;
    push_rest(
        &mut text,
        printed.text.as_str(),
        total.saturating_sub(count),
    )?;
    Ok(text)
}

// Appends the lines after so many.
fn push_rest(text: &mut String, printed: &str, passed: u64) -> Result<(), AllocError> {
    for (at, line) in printed.lines().enumerate() {
        if at as u64 >= passed {
            text.push('\n')?;
            text.push_str(line)?;
        }
    }
    Ok(())
}

// Each of the first calls of the shelf fails in turn, or each of the first puts to a sink that takes so many bytes.
fn in_turn(
    alloc: Global,
    files: &Files,
    take: Option<u64>,
    count: u64,
    words: &[&str],
) -> Result<String, AllocError> {
    let whole = faultless(alloc, files, words)?;
    let mut spans = Spans::new(alloc);
    for number in 1..=count {
        let told = turn(alloc, files, take, number, words, whole.text.as_str())?;
        spans.add(alloc, number, told.as_str())?;
    }
    spans.text(alloc)
}

// The status and how much of the whole text was taken, if the call of this number fails.
fn turn(
    alloc: Global,
    files: &Files,
    take: Option<u64>,
    number: u64,
    words: &[&str],
    whole: &str,
) -> Result<String, AllocError> {
    let faults = one_fault(alloc, take, number)?;
    let printed = run_over(alloc, files.copied(alloc)?, words, &faults)?;
    taken(alloc, &printed, whole, number.saturating_sub(1))
}

// The put of this number fails, where it is said how many bytes the sink takes at once, and else the call of the shelf.
fn one_fault(alloc: Global, take: Option<u64>, number: u64) -> Result<Faults, AllocError> {
    let mut faults = Faults::none(alloc, take.unwrap_or(TAKE));
    match take {
        Some(_) => faults.puts.push(number)?,
        None => faults.reads.push(number)?,
    }
    Ok(faults)
}

// The status, and how much of the whole text the sink took, if `before` calls precede the call that fails.
fn taken(alloc: Global, printed: &Printed, whole: &str, before: u64) -> Result<String, AllocError> {
    let code = printed.code;
    let text = printed.text.as_str();
    let count = text.len();
    if text == whole {
        return format!(in alloc; "{code}, all {count} bytes");
    }
    if text.is_empty() {
        return format!(in alloc; "{code}, nothing");
    }
    if !whole.starts_with(text) {
        return format!(in alloc; "{code}, another text");
    }
    if count as u64 == before {
        return format!(in alloc; "{code}, the first K - 1 bytes");
    }
    if text.ends_with('\n') && text.lines().count() as u64 == before {
        return format!(in alloc; "{code}, the first K - 1 lines");
    }
    format!(in alloc; "{code}, the first {count} bytes")
}

// The words over each prefix of a file, and over the file.
fn prefixes(
    alloc: Global,
    files: &Files,
    path: &str,
    words: &[&str],
) -> Result<String, AllocError> {
    let mut spans = Spans::new(alloc);
    for count in 0..=files.length(path) {
        let told = prefix(alloc, files, path, count, words)?;
        spans.add(alloc, count as u64, told.as_str())?;
    }
    spans.text(alloc)
}

// The words over a prefix of a file.
fn prefix(
    alloc: Global,
    files: &Files,
    path: &str,
    count: usize,
    words: &[&str],
) -> Result<String, AllocError> {
    let cut = files.cut(alloc, path, count)?;
    let printed = run_over(alloc, cut, words, &Faults::none(alloc, TAKE))?;
    ended(alloc, &printed)
}

// The status and the line, or how many lines and the last.
fn ended(alloc: Global, printed: &Printed) -> Result<String, AllocError> {
    let code = printed.code;
    let last = printed.text.as_str().lines().last().unwrap_or("");
    match printed.text.as_str().lines().count() {
        1 => format!(in alloc; "{code}, {last}"),
        count => format!(in alloc; "{code}, {count} lines, {last}"),
    }
}
