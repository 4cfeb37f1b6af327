//! Runs the command `plan`, which prints the mounts of a unit.
//!
//! The settings come from the inputs of the unit, and the mounts that give the service its view are planned. The text
//! is the plan, or the line of the first refusal. The crate uses `unit_inputs` and `mount_plan`.
//!
//! `prepare(alloc, &mut shelf, "web.service")?` has the mounts, and `print` writes their lines.
#![tactic(auto)]

mod command;
mod lines;
mod planning;
mod printing;
mod refusals;

pub use command::{Mounts, prepare};
pub use planning::plan_mounts;
pub use refusals::plan_line;
pub use unit_inputs::command_answers::{
    CommandError, ExitStatus, Ready, ReadyText, finish, finish_error, put_line, put_lines, refuse,
    refused_line, status_after,
};
pub use unit_inputs::{
    ItemList, Line, SettledUnit, push_u64, push_word, read_decimal, read_input, read_inputs,
    read_lines, read_text, settings_line, settle, settle_unit, unit_line,
};
