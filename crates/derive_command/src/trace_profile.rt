//! Finds the least list of calls that a service must be allowed for a script of calls.
//!
//! If you know what a service calls, by a trace or a test run, this is the one `SystemCallFilter=` that lets it through. The
//! search launches the unit with lists of names and makes the calls of the script (`launch_unit`, and the step of
//! `kernel_model`). [`allow_laws`] says why trying a name at a time is enough.
//!
//! `derive(alloc, &unit, &calls, &site, &script)?.names` are places of call lines, and `drop_in` is the text that allows them.

pub mod allow_laws;
mod derived;
mod extending;
mod fates;
mod finding;
mod foretelling;
mod names;
mod plain_names;
mod replies;
mod scripts;
mod searching;
mod used;

pub use asked_service::Resolved;
pub use derived::{DeriveError, Derived, Names};
pub use extending::drop_in;
pub use finding::derive;
