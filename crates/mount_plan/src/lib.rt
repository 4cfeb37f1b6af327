//! Plans the mounts that give a service its view of the files (systemd.exec(5), Sandboxing; mount_namespaces(7)).
//!
//! The crate makes a table of mounts from the mentions that the rules keep. On it the service sees every path as the
//! view has it. `plan(alloc, &mentions, &site)?.list()` begins with the mount at `/`.
#![tactic(auto)]

mod entry;
mod error;
mod here;
mod host;
mod kept;
pub mod laws;
mod places;
mod planning;
mod systemd;

pub use error::PlanError;
pub use kern_mounts::{Flags, MountStep, What};
use path_settings::ItemList;
pub use path_settings::systemd::{MountEntries, MountEntry, MountMode};
pub use path_settings::{Kind, Mention, MentionError, Mentioned, Mentions};
pub use planning::plan;

/// The mounts of a plan in their order, the first at `/`. Contracts see them as a list.
pub type MountSteps = ItemList<MountStep>;
