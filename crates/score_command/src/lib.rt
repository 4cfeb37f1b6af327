//! Runs the command `score`, which prints the exposure of a unit by a policy.
//!
//! The settings come from the inputs of the unit and give facts. By these and by the stored tests that are handed in,
//! the policy weighs the service, with a line for each of its tests. The crate uses `unit_inputs` for the settings,
//! `service_facts` for facts, `policy_file` and `exposure_score` for the weighing, and `report_text` for the lines.
//!
//! `prepare(alloc, &mut shelf, "web.service", "policy.json", 57, &tests)?` has the score, and `print` writes its
//! lines.
#![tactic(auto)]

mod command;
pub mod fleet_command;
mod policies;
mod preparing;
mod printing;
mod ready;
mod weighing;

pub use command::prepare;
pub use policies::read_policy;
pub use ready::Scored;
pub use report_text::{CustomTest, Facts, Stored, ambient_count, writable_paths};
