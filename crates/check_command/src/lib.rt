//! Runs the command `check`: tests if a filter of another maker decides every call as a filter of a unit does.
//!
//! The settings come from the inputs of the unit. The program of a file is compared, over all call data, with the
//! rules of the filter that the words name. `unit_inputs` gives the settings, `filter_lines` reads the file, and
//! `filter_check` compares.
//!
//! `prepare(alloc, &mut shelf, "web.service", "calls", "f.txt")?` has the outcome, and `print` writes its line.
#![tactic(auto)]

mod command;
mod comparing;
mod laws;
mod lines;
mod naming;
mod preparing;
mod programs;
mod ready;

pub use command::prepare;
pub use filter_check::{CallData, Program, run};
pub use laws::one_answer;
pub use ready::Checked;
