//! Why there is no score.

use thiserror::Error;

/// Why there is no score.
#[derive(Clone, Copy, Debug, PartialEq, Eq, Error)]
pub enum ScoreError {
    /// The weights of the tests that are not skipped sum to 0.
    #[error("no weight")]
    NoWeight,
    /// There is no memory left.
    #[error("out of memory")]
    Memory,
}
