//! Reads and prints small forms of text: numbers, booleans, errno names, words, lists and lines.
//!
//! `read_u64("0x10")` is `Some(16)`. Words and booleans follow systemd.syntax(7), in the profile that Lentsheep supports.
//!
//! - [`item_list`] has lists of items, which contracts see as plain lists.
//! - [`laws`] says that printed numbers and escaped words are read back, and that words are split as the grammar says.
//! - [`line_text`] reads texts line by line.
#![tactic(auto)]

mod booleans;
mod errnos;
mod error;
mod escaped;
pub mod item_list;
pub mod laws;
pub mod line_text;
mod numbers;
mod splitting;

pub use booleans::read_bool;
pub use errnos::errno_number;
pub use error::WordsError;
pub use escaped::push_word;
pub use linux_numbers;
pub use numbers::{push_u64, read_decimal, read_u64};
pub use splitting::words;
