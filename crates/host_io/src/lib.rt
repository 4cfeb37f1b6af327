//! Reads files from the outside world and writes bytes to it.
//!
//! A `Shelf` reads files and a `Sink` takes bytes. Both count the faults of the outside world: the count rises with an answer
//! `Failed`, and any other answer leaves it. Maps from paths to bytes agree with a shelf if they give all answers that it has given,
//! and a sink may show the bytes that it took. Every promise on texts rests on those maps and those bytes.
//!
//! `DirShelf` and `StdSink` are the real folder and the real output. The folder remembers its answers, for proofs alone, and the
//! output shows nothing. `MemShelf` and `MemSink` are kept in memory, and their calls with given numbers fail.
#![tactic(auto)]

mod heard;
mod memory_files;
mod memory_output;
mod reading;
mod real;
mod turns;
mod writing;

pub use memory_files::{MemShelf, are_files};
pub use memory_output::MemSink;
pub use reading::{Shelf, ShelfError};
pub use real::{DirShelf, StdSink};
pub use writing::{Sink, SinkError, write_whole};
