//! Reads questions as a report prints them.
//!
//! A line names one question of the list of a table of calls and a site, or none. A report prints each question after
//! its verdict, for example `read /etc/passwd` or `cap CAP_SYS_ADMIN`, and prints no two alike.
//!
//! `read_question(alloc, &calls, &site, b"uid 0")?` is the question of root. If you read many lines,
//! `print_questions(alloc, &calls, &site)?` prints the list once, and `find_question(&printed, line)` looks a line up
//! in it.
#![tactic(auto)]

pub mod laws;
mod printed;
mod reading;

pub use printed::{PrintedQuestion, print_questions};
pub use reading::{find_question, read_question};
pub use report_text::questions;
