//! Runs the command `filter`, which prints the compiled filters of a unit.
//!
//! The settings come from the files, and each filter that is on is compiled. The text is the programs, or the line of
//! the first refusal. The crate uses `unit_inputs`, and `launcher` for the programs.
//!
//! `prepare(alloc, &mut shelf, "web.service")?` has the programs, and `print` writes their lines.
#![tactic(auto)]

mod command;
mod lines;
mod printing;

pub use command::{Filters, prepare};
