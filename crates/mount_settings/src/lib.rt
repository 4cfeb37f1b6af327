//! Reads the keys of a unit that name paths or protect them, as the mentions by which its mounts are planned.
//!
//! The written paths are first, in the order of their assignments over all files. They are followed by the paths that
//! protections of the file system and folder keys imply (systemd.exec(5), Sandboxing). `unit_values` has the
//! values, `path_settings` reads the words, and `site_table` has the rows that implied paths need.
//!
//! `written_paths(alloc, &unit)?.what` has the written paths; `mentions_root` and `mount_settings` take them.
#![tactic(auto)]

mod assigned;
mod choices;
mod effects;
mod error;
mod implied;
pub mod laws;
mod protections;
mod roots;
mod settings;
mod systemd;
mod table;
mod tmp;
mod written;

pub use assigned::written_paths;
pub use dropin_merge::{ExpandError, NameError, UnitName, Version, expand};
pub use error::MountSettingsError;
pub use path_settings::{Mentioned, Mentions, PathKey};
pub use protections::{HomeProtection, Protections, Switches, SystemProtection};
pub use roots::mentions_root;
pub use settings::{MountSettings, mount_settings};
pub use written::{WrittenPath, WrittenPaths};
