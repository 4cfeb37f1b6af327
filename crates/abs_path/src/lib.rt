//! Reads, compares and joins normal absolute paths by whole parts.
//!
//! `AbsPath::read(alloc, "/a//b/")?.text()` is `/a/b`. An `AbsPath` has no empty part, no `.`, no `..` and no NUL, and at most
//! 512 bytes.
//!
//! - [`laws`] has laws of prefixes, joined paths, texts and byte order.
//! - [`place_tree`] is a tree over the parts of places, which finds the last place that leads to a path.
#![tactic(auto)]

mod error;
pub mod laws;
mod order;
mod path;
pub mod place_tree;
mod text;

pub use error::{JoinError, PathError};
pub use order::put;
pub use path::AbsPath;
