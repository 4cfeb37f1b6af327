//! Reads names of services, lists the folders of their drop-ins, and expands the specifiers in their settings. It also lists
//! the known versions of systemd.
//!
//! `UnitName::read` reads a name once and keeps its prefix and its instance (systemd.unit(5)). `dropin_merge` looks for the
//! folders, and its `unit_values` expands the values.
//!
//! `dropin_folders(alloc, &UnitName::read(alloc, "web@1.service")?)` begins with `web@1.service.d`.
#![tactic(auto)]

mod cutting;
mod expansion;
mod folders;
pub mod laws;
mod name;
mod specifier;
mod unescape;
mod version;

pub use expansion::{ExpandError, expand};
pub use folders::dropin_folders;
pub use name::{NameError, UnitName};
pub use version::Version;
