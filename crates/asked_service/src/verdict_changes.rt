//! Finds what changes from one launched service to another: the questions whose verdicts differ, and the folders that
//! only one of the two is blind to.
//!
//! The module uses `judge` and `open_calls` for the answers, and [`crate::truths`], which says why these are true.
//!
//! `verdict_change(&before, &after, &service, &question)?` is `Closed` if the question was open before and is denied
//! after.

mod asking;
mod looking;
mod reasons;

pub use asking::{VerdictChange, verdict_change};
pub use looking::{FolderChange, folder_change};
pub use reasons::changes_are_true;
