//! Prepares and prints any command.
//!
//! Preparing reads files of a `host_io` shelf and finds every refusal. Then `Ready` prints the text line by line: each line is
//! one piece for the sink. A `ReadyText` has all its lines before it prints the first. The crates of the commands use this
//! module. A command that makes its text while it prints, such as a report, does not implement `Ready`: it returns its exit
//! status itself, through `finish_error` and `status_after`.
//!
//! `put_line(out, line_of(alloc, item))?` prints a line; `CommandError::Refused(refused_line(alloc, "calls.txt", b"missing")?)`
//! refuses a file.

mod error;
mod exit_status;
mod files;
mod finishing;
mod lines;
mod printing;
mod ready;
mod ready_text;
mod refusals;

pub use error::{CommandError, boxed, refuse};
pub use exit_status::ExitStatus;
pub use files::{FileRead, TABLE_PATH, read_file};
pub use finishing::{finish, finish_error, status_after};
pub use lines::put_lines;
pub use printing::put_line;
pub use ready::Ready;
pub use ready_text::ReadyText;
pub use refusals::refused_line;
