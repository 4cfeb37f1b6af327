//! The question about a unit on a pair of sites.
use asked_service::{Call, CallTable, Resolved, SiteTable};

/// A unit with the tables of its launch, the other site of the pair, the folder of the question, and the calls that
/// are made.
#[derive(Drop)]
pub struct Asked<'a> {
    pub unit: &'a Resolved,
    pub calls: &'a CallTable,
    pub site: &'a SiteTable,
    pub other: &'a SiteTable,
    pub folder: &'a str,
    pub script: &'a [Call],
}
