//! Credentials of processes in a modelled Linux kernel, and the calls that change them (credentials(7), capabilities(7)).
//!
//! Each call follows its rule in the manual: it changes the credentials, or returns an errno and changes nothing. After
//! `Creds::start(alloc)` and `setuid(33)`, a process has no capability.
#![tactic(auto)]

mod creds;
mod error;
mod exec;
mod file;
mod groups;
mod identity;
mod ids;
pub mod laws;
mod prctl;
mod ring;
mod sets;

pub use creds::Creds;
pub use error::CredError;
pub use file::FileCreds;
pub use groups::Groups;
pub use ids::Ids;
