//! Runs the whole program over the files of a row.
use crate::asked::answers;
use crate::rows::Rows;
use crate::runs::{Printed, run_over};
use crate::sought::sought;
use row_tools::said;
use std::alloc::{AllocError, Global};

/// Runs a row, and returns its words and the status, and then the bytes that the sink took.
pub fn run_row(alloc: Global, rows: &Rows) -> Result<String, AllocError> {
    let printed = printed(alloc, rows)?;
    let shown = shown(alloc, rows, printed.text.as_str())?;
    whole(alloc, rows, printed.code, shown.as_str())
}

fn printed(alloc: Global, rows: &Rows) -> Result<Printed, AllocError> {
    let words: Vec<&str> = rows.words.iter().map(|word| word.as_str()).collect(alloc)?;
    let files = rows.files.copied(alloc)?;
    run_over(alloc, files, words.as_slice(), &rows.faults)
}

// Returns the text that the sink took. If filters are asked, their answers replace the text; if lines are sought, it
// says which of them the text has.
fn shown(alloc: Global, rows: &Rows, taken: &str) -> Result<String, AllocError> {
    if !rows.asked.is_empty() {
        return answers(alloc, taken, rows.asked.as_slice());
    }
    if !rows.sought.is_empty() {
        return sought(alloc, taken, rows.sought.as_slice());
    }
    said(alloc, taken)
}

// Returns the words and the status, and below them the text, with a sign if it does not end with a line feed.
fn whole(alloc: Global, rows: &Rows, code: u8, text: &str) -> Result<String, AllocError> {
    let words = words(alloc, rows)?;
    match text.strip_suffix('\n') {
        Some(text) => format!(in alloc; "run{words} -> {code}\n{text}"),
        None => format!(in alloc; "run{words} -> {code} (cut)\n{text}"),
    }
}

// The words, each after a space.
fn words(alloc: Global, rows: &Rows) -> Result<String, AllocError> {
    let mut text = String::new(alloc);
    for word in &rows.words {
        text.push(' ')?;
        text.push_str(word.as_str())?;
    }
    Ok(text)
}
