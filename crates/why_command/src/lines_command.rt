//! The command `why` and the name of a unit alone: what each of its lines denies by itself, as text.
//!
//! The text has each assignment in force, with the questions that the unit denies and the unit without it leaves open. An assignment
//! is needed if the unit without it cannot be launched. The last line counts the assignments, and those that open nothing by
//! themselves.
//!
//! `prepare(alloc, &mut shelf, "web.service")?` has the text, and `print` puts it.

mod answering;
mod command;
mod lines;

pub use command::prepare;
