//! Finds the paths of a program of seccomp(2), and the call data that take each of them.
//!
//! A program of the form only loads words of the data, masks them, and compares them with numbers. So a path only sets
//! conditions on single words. The data that take it are the data whose sixteen words are each in a set of its own.
//! [`all_ends`] finds all paths with their data. A [`Region`] is such a set of data.

mod comparing;
mod ends;
mod form;
mod held;
mod region;
mod regions;
mod states;
mod stepping;
mod walks;

pub use form::first_foreign;
pub use region::Region;
pub use states::End;
pub(crate) use states::{Next, State};
pub(crate) use stepping::next;
pub use walks::all_ends;
pub(crate) use walks::start;
