//! Computes the ceiling of a launched service: the capabilities, the ids and the power over mount tables that its
//! processes can ever have.
//!
//! A ceiling is made once for a launched world, from its credentials, its filters and the programs of the site. It
//! bounds every process in every world that any calls lead to.
//!
//! `ceiling(alloc, &launched)?.effective` has the capabilities. The rules of a ceiling say without taking memory if
//! the filters let some call of a kind through. The crate uses `launcher`, `reach_paths` and `kernel_laws`.
#![tactic(auto)]

mod bounds;
mod calls;
mod first;
mod gains;
mod ids;
mod kinds;
mod leads;
mod making;
mod memory;
mod passing;
mod powers;
mod programs;
mod ruled;
mod searching;

pub use bounds::Ceiling;
pub use calls::{chosen_words, lets_line, passing_line, plain_line, plain_line_at, rule_of};
pub use first::{launched_process, launched_table};
pub use ids::IdList;
pub use kernel_model::{
    CallLine, CallRule, CallTable, CapSet, Flags, MountStep, MountTable, Row, SiteTable, What,
    is_known,
};
pub use kernel_ways::linux_numbers::capabilities::{
    CAP_LAST_CAP, CAP_SETGID, CAP_SETUID, CAP_SYS_ADMIN, CAP_SYS_NICE,
};
pub use kernel_ways::{
    FilterProgram, LaunchError, Launched, Mentioned, MountSteps, Need, PlanError, Resolved,
    Settings, SettingsError, Version, blindness, is_covered, is_read, launch, mount_wish, openness,
    plan, reach, reach_for, settings,
};
pub use leads::{RowLeads, reach_by};
pub use making::ceiling;
pub use memory::{attaching, refuses_memory};
pub use passing::PathCalls;
pub use programs::{can_run, can_write, is_barred, runs_plainly};
pub use ruled::{LineRules, can_make_user, can_submit};
