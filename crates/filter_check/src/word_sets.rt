//! Keeps sets of 32-bit words by their conditions.
//!
//! A [`WordSet`] has the words that meet all of its conditions, and knows the least of them. [`narrow`] adds a condition.
//! The size of a set is the size of its conditions, however many words and gaps it has. If the least word fails the new
//! condition, the next one is searched for, bit by bit, in a [`Cube`]: the words of which some bits are known.

mod choosing;
mod condition;
mod cube;
mod known;
mod narrowing;
mod searching;
mod set;

pub use condition::{Condition, Orders};
pub use narrowing::narrow;
pub use set::WordSet;
