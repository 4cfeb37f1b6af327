//! A policy: the weights of tests of a service, as a JSON object.
//!
//! The members of the object are the tests, by identifier. `serde_json` gives the tree of the text. `read_policy(alloc,
//! br#"{"PrivateTmp":{"weight":3}}"#)?` has one test, of weight 3 and range 1.
//!
//! `serde_json` decides what is JSON: one value of RFC 8259 in UTF-8, nested at most 127 deep. If a member occurs twice, the
//! last one counts.

mod error;
mod identifier;
pub mod laws;
mod member;
mod policy;
mod reader;

pub use error::PolicyError;
pub use identifier::TestId;
pub use policy::{Policy, PolicyTest};
pub use reader::read_policy;
