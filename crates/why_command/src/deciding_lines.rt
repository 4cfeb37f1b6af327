//! Finds the lines of a unit that deny a question.
//!
//! A question is denied for the service of a unit. Without the found assignments it is open, and each of them matters: with any
//! one put back it is denied again, or the unit does not launch. [`unit_lines`] has the assignments in force and makes the unit
//! without some of them. Each set of lines that is tried costs a launch and a verdict, both of `asked_service`.
//!
//! `trial.reason(alloc, service)?` has the lines, or says that none of them denies it.

mod bare;
mod leaving_out;
mod reason;
mod searching;
mod starting;
mod trial;
pub mod unit_lines;

pub use bare::bare_places;
pub use reason::Reason;
pub use starting::{Started, start_without};
pub use trial::Trial;
