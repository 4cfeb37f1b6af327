//! The work that remains of a call after the change to its caller and the caller's table.

use crate::reply::Reply;

/// The remaining work of a call.
#[derive(Clone, Copy)]
pub(crate) enum Outcome {
    /// No work remains: this is the reply.
    Replied(Reply),
    /// Make a copy of the caller.
    MakesChild {
        /// The copy gets a mount namespace of its own.
        own_mounts: bool,
    },
    /// Move the caller to a mount namespace of its own.
    MakesTable,
    /// Make a copy of the caller in a user namespace of its own.
    MakesUserChild {
        /// The copy also gets a mount namespace of its own.
        own_mounts: bool,
    },
    /// Move the caller to a user namespace of its own.
    MakesOwnUser {
        /// The caller also gets a mount namespace of its own.
        own_mounts: bool,
    },
}
