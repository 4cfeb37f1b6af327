//! Runs the command `effect`, which prints what a drop-in would open or close for a unit.
//!
//! The unit is launched in the modelled kernel as it is, and once more with the drop-in after its files. The text has
//! each question whose verdicts differ, each folder that only one of the two services is blind to, and the counts.
//! The crate uses `asked_service` for the launches and the questions, and its `verdict_changes` for the changes.
//!
//! `prepare(alloc, &mut shelf, "web.service", "more.conf")?` has the text, and `print` writes it.
#![tactic(auto)]

mod answering;
mod command;
mod comparing;
mod dropin;
mod kinds;
mod lines;
mod starting;
mod telling;

pub use command::prepare;
