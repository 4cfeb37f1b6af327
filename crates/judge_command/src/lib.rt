//! Runs the command `judge`, which prints what the sandbox of a unit lets its service do.
//!
//! The command reads the settings of the unit, plans its mounts, and launches it in the modelled kernel. It then asks
//! every question and prints each answer as it is found, with calls below an open question.
//!
//! `answer(alloc, &mut shelf, "web.service", &mut out)` runs the command, and says how it ended. The crate uses
//! `asked_service` and `open_calls` for questions and answers, `report_text` for the lines, and `plan_command` for
//! the plan.
#![tactic(auto)]

mod answers;
mod command;
mod counting;
mod folders;
mod launching;
mod preparing;
mod printing;

pub use command::answer;
pub use questions::{Question, Wish};
