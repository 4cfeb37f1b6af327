//! Lists the system calls that the modelled kernel knows by name.
//!
//! The kernel has a rule of its own for a known call, or lacks the call. Every other call of a table is plain. A rule says which
//! payload its calls carry: `known_call(Kernel::Base, "openat")` is a modelled call whose flags are the third argument.

mod kernel;
mod known;
pub mod laws;
mod payload;
mod rule;

pub use kernel::Kernel;
pub use known::{KnownCall, is_known, known_call};
pub use payload::{PayloadForm, form_of};
pub use rule::{Argument, CallRule};
