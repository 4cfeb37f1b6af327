//! Runs the command `sample`, which prints how much of a made input is denied and how much open, as five counts.
//!
//! The inputs are made from a number (`sample_inputs`). They are settled, planned and launched like the inputs of any unit.
//! Every question is asked of the launched service, and the answers are counted. No made input is refused (`sample_launch`).
//! The crate uses `asked_service` for the launch and the questions.
//!
//! `prepare(alloc, 7)?` has the counts, and `print` writes their lines.
#![tactic(auto)]

mod command;
mod judging;
mod launching;
mod sampled;

pub use command::prepare;
pub use sampled::Sampled;
