//! The type of a score: what each test of a policy came to, and the exposure.

use crate::policy_file::TestId;
use exec_settings::ItemList;

/// What one test of a policy came to. Where it is skipped, its numbers are 0.
#[derive(Drop)]
pub struct ScoreRow {
    pub id: TestId,
    /// Whether neither a fact nor a stored test has the identifier.
    pub skipped: bool,
    pub badness: u32,
    /// The policy's range, to which the badness is cut before it is weighed.
    pub range: u32,
    /// The policy's weight.
    pub weight: u32,
    /// The part of the weight that counts, rounded up.
    pub term: u32,
}

/// Rows in byte order of identifiers.
pub type ScoreRows = ItemList<ScoreRow>;

/// The exposure of a service by a policy.
#[derive(Drop)]
pub struct Score {
    /// A row for each test of the policy.
    pub rows: ScoreRows,
    /// The part of all weights that counts, in hundredths, rounded up: 0 to 100.
    pub exposure: u32,
}
