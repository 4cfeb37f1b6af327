//! Reads texts line by line.
//!
//! Bytes are text if they are UTF-8 without NUL. Each LF ends a line. Empty lines and lines that begin with `#` are skipped but
//! keep their numbers. Spaces separate the words of a line: `words(alloc, "call  read 0")?` has the three words `call`, `read`
//! and `0`.

mod lines;
mod text;

pub use lines::{Line, read_lines, words};
pub use text::read_text;
