//! The command `tighten`: how far the sandbox of a unit can be tightened while some questions stay open, as text.
//!
//! The command reads the unit, and a file with the questions that are to stay open. [`tightening`] then adds one setting after
//! the other. The text has the settings that can be added, and how many questions are denied and open before and after.
//!
//! `prepare(alloc, &mut shelf, "web.service", "keep.txt", &wishes)?` has the text, and `print` writes it.
#![tactic(auto)]

mod answering;
mod command;
mod keep_file;
mod keeping;
mod lines;
pub mod tightening;

pub use command::prepare;
