//! Makes the list of all questions about a launched service, in their order.
//!
//! A question asks whether any process of the service can ever do one thing, for example read one file or have one
//! capability. `call_table` and `site_table` say what there is to ask about, and `kernel_laws` says what each
//! question means.
//!
//! `questions(alloc, &calls, &site)?` begins with seeing and reading the row of `/`.
#![tactic(auto)]

mod all;
mod ids;
pub mod laws;
mod question;
mod tables;

pub use all::questions;
pub use kernel_laws::question_types::{CallKind, NamespaceType, Power, Question, Verdict, Wish};
pub use kernel_laws::{Call, IdList, Payload, Reply, Request, Rule, World, fits};
