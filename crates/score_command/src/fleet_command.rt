//! Runs the command `fleet`, which prints all units of a host by their exposure.
//!
//! [`fleet_names`] lists the units; then the tables and the policy are read, and [`fleet_report`] scores each unit by itself. A
//! refused unit is a line of the text and refuses nothing. The module uses `unit_inputs` and `score_command` for the tables, the
//! policy and the lines of refused units.
//!
//! `prepare(alloc, &mut shelf, "policy.json", &tests)?` has the rows, and `print` writes their lines.

mod command;
pub mod fleet_names;
pub mod fleet_report;
mod naming;
mod preparing;
mod printing;
mod ready;
mod reporting;
mod wording;

pub use command::prepare;
pub use ready::Fleet;
