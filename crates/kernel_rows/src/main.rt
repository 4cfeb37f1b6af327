//! Runs rows over tables of many mounts, and over pairs of sites that differ only below a folder.
//!
//! A line that begins with `#` says what the next rows show, and is printed. A line that begins with two spaces is held as
//! a text. Each other line is a row of words, separated by bars, and is printed with its answer.
//!
//! | Row | Step |
//! |---|---|
//! | `mounts\|..` | changes a table of mounts, or asks it (`mounts`) |
//! | `calls`, `site`, `other` | takes the held text as calls.txt, as site.toml, as more rows for the other site |
//! | `pair\|..` | compares a service on both sites (`alike`) |
#![tactic(auto)]

mod alike;
mod mounts;
mod rows;

use row_tools::follow_lines;
use rows::Rows;
use std::io;

fn main(rt: HostRuntime) -> io::Result<()> {
    follow_lines(&rt, &mut Rows::new(rt.alloc())?)
}
