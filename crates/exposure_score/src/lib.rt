//! Scores what the sandbox of a service leaves open, weighed by a policy.
//!
//! `score(alloc, &policy, &facts, &tests)?.exposure` is 0 if no test is bad, and 100 if every test is as bad as its range allows.
//! A test takes its badness from a fact of the service's settings, or else from a stored test that the caller passes. Its term is
//! `ceil(min(badness, range) * weight / range)`. The exposure is `ceil(100 * terms / weights)`, over the sums of both.
//!
//! - [`laws`]: laws of the rounding and the bounds of scores.
//! - [`policy_file`]: policies, which are JSON objects.
//! - [`policy_weights`]: whether a policy gives weight to any test, whatever the service.
//! - [`service_facts`]: the facts of a unit that tests look at (systemd-analyze(1), security).
#![tactic(auto)]

mod arithmetic;
mod badness;
mod custom_test;
mod error;
mod facts;
pub mod laws;
pub mod policy_file;
pub mod policy_weights;
mod rows;
mod scoring;
pub mod service_facts;
mod stored;

pub use crate::policy_file::TestId as FactId;
pub use custom_test::{Check, CustomTest, Stored};
pub use error::ScoreError;
pub use exec_settings::{
    Assignment, Assignments, CallLine, CallTable, CapSet, FileNote, Notes, Place, ResolveError,
    Resolved, Row, RowKind, SiteTable, Text, UnitError, UnitFile, UnitFiles, UnitText, name_at,
    push_u64, push_word, read_unit, resolve, service_assignments,
};
pub use facts::{Fact, FactList, Facts};
pub use rows::{Score, ScoreRow, ScoreRows};
pub use scoring::score;
pub use stored::{ambient_count, writable_paths};
