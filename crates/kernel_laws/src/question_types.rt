//! Types for the questions about a launched service: the question, what is wished of a file, and what a call asks
//! for.
//!
//! The module has types only. The laws cite them, and the commands hand them around. `Question::Path(Wish::Read, 3)`
//! asks whether the service can read row 3 of a site.

mod kind;
mod power;
mod question;
mod verdict;
mod wish;

pub use filter_settings::linux_numbers::namespaces::NamespaceType;
pub use kind::CallKind;
pub use power::Power;
pub use question::Question;
pub use verdict::Verdict;
pub use wish::Wish;
