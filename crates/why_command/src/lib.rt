//! The command `why`: which lines of a unit deny a question, or what each line denies, as text.
//!
//! `judge` gives the verdict. For a denied question the text lists lines without which it would be open, each of which matters
//! (`deciding_lines`). Without a question, [`lines_command`] prints what each line denies by itself, as [`opening_lines`] finds
//! it.
//!
//! `prepare(alloc, &mut shelf, "web.service", &["write", "/etc/passwd"])?` has the text, and `print` writes it.
#![tactic(auto)]

mod answering;
mod asking;
mod command;
pub mod deciding_lines;
mod lines;
pub mod lines_command;
pub mod opening_lines;
mod telling;

pub use command::prepare;
pub use lines::push_assignment;
