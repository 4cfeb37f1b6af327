//! Why a policy is refused.

use crate::policy_file::identifier::TestId;
use thiserror::Error;

/// Why a policy is refused; of several reasons, the first in this order.
#[derive(Debug, Drop, Error)]
pub enum PolicyError {
    /// The bytes are no JSON, or no object.
    #[error("no JSON object")]
    NotJson,
    /// The first member in byte order of identifiers that is no test: its `weight` is missing, or its
    /// `weight` or `range` is no whole number in range.
    #[error("member {0} is refused")]
    Field(TestId),
    /// There are more than 512 tests.
    #[error("too many members")]
    TooMany,
    /// There is no memory left.
    #[error("out of memory")]
    Memory,
}
