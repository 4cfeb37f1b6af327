//! How bad the settings of a service are, test by test (systemd-analyze(1), security).
//!
//! One table lists the tests, each by its identifier and by what it looks at. It gives both the facts and the known tests.
//!
//! `facts(alloc, &unit, &calls, &site, &settings)?.tests` has a fact for each test of the table, in byte order of identifiers.

mod each;
pub mod laws;
mod line_facts;
mod lines;
mod listing;
mod matters;
mod permitted;
mod reading;
mod sandbox;

pub use each::known_test;
pub use lines::{Line, Matter, Protection, table};
pub use listing::facts;
