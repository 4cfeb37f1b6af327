//! Makes the list of calls that is printed below an open question.
//!
//! [`chosen_calls`] defines which list is chosen, with the law that it shows the question. The crate uses `ceilings` for what
//! passes the filters and what can be run, and `reach_paths` for the entry that leads to a row.
//!
//! A `Service` keeps what does not depend on the question. `calls(&Service::of(alloc, &launched, &ceiling)?, &Question::MapWx)?`
//! is one call of mmap(2) if that question is open.
#![tactic(auto)]

mod answering;
mod basis;
pub mod chosen_calls;
mod exposing;
mod first;
mod firsts;
mod gains;
mod ids;
mod making;
mod modes;
mod names;
mod rings;
mod rows;
mod service;
mod ways;

pub use answering::calls;
pub use service::Service;
