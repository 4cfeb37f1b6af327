//! Makes the input of a sample: a table of system calls, a site and a unit, as texts that the readers of all inputs read.
//!
//! The number of the sample says which objects of the site are executables, and what the unit says of its folders. The crate uses
//! the readers (`call_table`, `site_table`, `unit_grammar`), and `toml`, which prints the site. [`sample_launch`] has the laws
//! that every sample is launched.
//!
//! `made(alloc, 7)?` has the unit `sample.service`, and a site of 1,045 rows.
#![tactic(auto)]

mod calls;
mod inputs;
pub mod laws;
mod rows;
pub mod sample_launch;
mod site;
mod unit;

pub use inputs::{SampleInputs, made};
