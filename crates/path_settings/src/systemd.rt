//! Says what systemd 252 and 257 mount for a service, one mount for each path (systemd's namespace.c).
//!
//! A [`MountEntry`] is a path with what a setting mounts there. Of the entries at one path the strongest is chosen. Some chosen
//! entries are hidden or say nothing new, and the others are listed. `mount_plan` makes a table of mounts from them.
//!
//! `listed_at(&entries, &path)` is the entry that is listed at a path.

mod chosen;
mod entries;
pub mod laws;
mod listed;
mod making;
mod modes;
mod sight;
mod written;

pub use chosen::{chosen_at, is_marked_at, nearest_above};
pub use entries::{MountEntries, MountEntry};
pub use listed::{is_live_node, listed_at};
pub use making::fate_of;
pub use modes::{Mark, MountMode, OwnFlags};
pub use sight::{is_no_exec, is_read_only};
pub use written::entry_of;
