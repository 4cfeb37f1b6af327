//! Follows the lines of a program of rows, and prints the answers.
use std::alloc::Global;
use std::io;

/// The output for a line.
#[derive(Drop)]
pub enum Shown {
    /// Nothing.
    Nothing,
    /// The line, and the answer after it.
    Answer(String),
    /// This text in place of the line.
    Text(String),
}

/// A program of rows.
pub trait Follow {
    /// Follows a line that is no comment.
    fn follow(&mut self, alloc: Global, line: &str) -> io::Result<Shown>;
}

/// Returns the name of the part that a line `part NAME` begins.
pub fn part_of(line: &str) -> Option<&str> {
    line.strip_prefix("part ")
}

/// Follows each line of the standard input, and prints the answers.
pub fn follow_lines<R: Input + Print + AllocGlobal, F: Follow>(
    rt: &R,
    rows: &mut F,
) -> io::Result<()> {
    for line in rt.lines(rt.alloc()) {
        follow_line(rt, rows, line?.as_str())?;
    }
    Ok(())
}

// Follows a line, and prints the answer. A line that begins with `#` is a comment: it is printed as it is.
fn follow_line<R: Print + AllocGlobal, F: Follow>(
    rt: &R,
    rows: &mut F,
    line: &str,
) -> io::Result<()> {
    if line.starts_with('#') {
        return rt.println(line);
    }
    match rows.follow(rt.alloc(), line)? {
        Shown::Nothing => Ok(()),
        Shown::Answer(answer) => println!(rt; "{line} -> {answer}"),
        Shown::Text(text) => rt.println(text.as_str()),
    }
}
