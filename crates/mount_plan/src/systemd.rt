//! Makes the plan of systemd 252 and 257, which choose one mount for each path.
//!
//! - `listing`: the listed entries.
//! - `making`: the entries that are made, or the first refusal.
//! - `table`: the plan of the made entries.

mod listing;
mod making;
mod table;

pub(crate) use table::plan_entries;
