//! Helps programs of rows: it reads their lines and parts, and the words of a row.
//!
//! `follow_lines(&rt, &mut rows)` is the `main` of a program of rows, which implements `Follow`. In a program with parts,
//! a line `part NAME` begins a part (`part_of`), and prints nothing.
//!
//! Bars separate the words of a row. `text_of` reads the escapes of a word, and `bytes_of` reads bytes in hex.
#![tactic(auto)]

mod lines;
mod wording;

pub use lines::{Follow, Shown, follow_lines, part_of};
pub use wording::{bytes_of, number, number32, said, text_of, words};
