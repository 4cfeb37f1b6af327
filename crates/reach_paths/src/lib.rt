//! Finds the entry of a mount table that leads to a file of the host.
//!
//! A path shows a file if some entry shows the file there and no later entry covers the path. A service that may call
//! umount2(2) can take covers away, and one that may call mount(2) can show the whole host.
//!
//! `reach(&table, &path, Wish::Read, Power::None)` is the number of the first entry that leads to the file. No call
//! takes memory.
#![tactic(auto)]

mod covers;
mod first;
pub mod laws;
mod needs;

pub use covers::is_covered;
pub use first::{reach, reach_for};
pub use needs::{Need, mount_wish};
