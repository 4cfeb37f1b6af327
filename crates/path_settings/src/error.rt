//! Says why a mention is not added.

use thiserror::Error;

/// Says why a mention is not added.
#[derive(Clone, Copy, Debug, PartialEq, Eq, Error)]
pub enum MentionError {
    /// There are 192 mentions.
    #[error("there are 192 mentions")]
    Full,
    /// There was no memory for the mention.
    #[error("out of memory")]
    Memory,
}
