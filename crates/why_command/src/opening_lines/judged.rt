//! A launched unit, with all questions about it.

use asked_service::{Asked, CallTable, Resolved, SiteTable};

/// A launched unit, with all questions about it. Its lines are tried one after the other.
#[derive(Drop)]
pub struct Judged<'a> {
    /// The name of the unit, which lines of refusals print.
    pub name: &'a str,
    /// The unit.
    pub unit: &'a Resolved,
    /// The table of calls.
    pub calls: &'a CallTable,
    /// The host.
    pub site: &'a SiteTable,
    /// Its service, with all questions of the tables.
    pub asked: Asked<'a>,
}
