//! Why a call that takes memory is refused.

use thiserror::Error;

/// Why a call that takes memory is refused.
#[derive(Clone, Copy, Debug, PartialEq, Eq, Error)]
pub enum CredError {
    /// The call's rule refuses it with this errno.
    #[error("errno {0}")]
    Errno(u32),
    /// Memory ran out.
    #[error("out of memory")]
    Memory,
}
