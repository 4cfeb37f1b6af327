//! Scores all units of a host, the least protected first.
//!
//! Each unit is resolved, settled and scored by itself, by its own files, and dropped before the next is read. Its
//! row has the result. The module uses `dropin_merge` for the files of a unit, `exec_settings` and `service_facts`
//! for its settings and their facts, and `policy_weights` and `exposure_score` for the weighing.
//!
//! `fleet(alloc, &mut shelf, &names, &calls, &site, &policy, &tests)?` has a row for each name, the greatest exposure first.

mod errors;
mod ordering;
mod reporting;
mod rows;
mod scoring;

pub use errors::FleetError;
pub use reporting::fleet;
pub use rows::{FleetOutcome, FleetRow};
