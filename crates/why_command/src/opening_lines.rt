//! What each line of a unit denies by itself.
//!
//! All questions of the tables are asked of a launched unit, and of the unit without one of its assignments in force. The line opens
//! what the first denies and the second leaves open.
//!
//! `judged.each(alloc, &lines(alloc, &unit)?)?` has, for each line, the questions that it opens, or says that it is needed.

mod alone;
mod each;
mod judged;
mod opened;

pub use alone::Alone;
pub use each::LineAlone;
pub use judged::Judged;
