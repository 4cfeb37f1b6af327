//! Holds sets of Linux capabilities, and names capabilities (capabilities(7)).
//!
//! A `CapSet` holds numbers from 0 to 40: `CapSet::empty().with(21).contains(21)` is true. It has the operations of
//! sets, and no call takes memory.
#![tactic(auto)]

mod bits;
pub mod laws;
mod names;
mod set;

pub use linux_numbers;
pub use set::CapSet;
