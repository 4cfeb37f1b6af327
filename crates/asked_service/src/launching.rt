//! Launches the service of a unit: one call returns the service, or the first refusal of its settings, its mounts and its launch.
//!
//! The module uses `exec_settings`, `mount_plan` and `launcher` for the three steps, `plan_command` and `report_text` for the
//! lines of refusals, and `unit_grammar` to add a file after the unit's files.
//!
//! `launch_unit(alloc, &with_file(alloc, &unit, b"[Service]\nProtectHome=yes\n")?, &calls, &site)?` is the service of a longer
//! unit. `tell_refusal` has the line and the exit status of a refusal, and `told` the printed facts of a service.

mod longer;
mod refusal;
mod steps;
mod telling;

pub use longer::with_file;
pub use refusal::{Refusal, launch_line, refusal_line, refused_launch, tell_refusal};
pub use steps::{launch_planned, launch_settled, launch_unit};
pub use telling::told;
