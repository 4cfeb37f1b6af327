//! Looks up lines in reports that are too long for a row.
use std::alloc::{AllocError, Global};

/// Appends a line to a text, with a front.
pub fn push_line(text: &mut String, front: &str, line: &str) -> Result<(), AllocError> {
    text.push_str(front)?;
    text.push_str(line)?;
    text.push('\n')
}

// Appends whether the text has the line, and the indented lines below it.
fn push_sought(said: &mut String, text: &str, sought: &str) -> Result<(), AllocError> {
    let mut has = false;
    let mut below = false;
    for line in text.lines() {
        if below && line.starts_with("  ") {
            push_line(said, "", line)?;
        } else {
            below = line == sought;
            if below {
                has = true;
                push_line(said, "has ", line)?;
            }
        }
    }
    if !has {
        push_line(said, "lacks ", sought)?;
    }
    Ok(())
}

// Appends the number of lines that begin so.
fn push_count(alloc: Global, said: &mut String, text: &str, front: &str) -> Result<(), AllocError> {
    let count = text.lines().filter(|line| line.starts_with(front)).count();
    said.push_str(format!(in alloc; "{count} times {front}*\n")?.as_str())
}

/// Returns for each of these lines that the text has it, above the indented lines below it, or that the text lacks
/// it. For a line that ends in `*` it returns the number of lines that begin with the text before the `*`.
pub fn sought(alloc: Global, text: &str, lines: &[String]) -> Result<String, AllocError> {
    let mut said = String::new(alloc);
    for line in lines {
        match line.as_str().strip_suffix('*') {
            Some(front) => push_count(alloc, &mut said, text, front)?,
            None => push_sought(&mut said, text, line.as_str())?,
        }
    }
    Ok(said)
}
