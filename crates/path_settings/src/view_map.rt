//! Says what a service finds at a path, by the mentions of its settings.
//!
//! Rules say which mentions are kept. Among the kept mentions that lead to a path, the longest decides which object is
//! there and how it may be used (systemd.exec(5), Sandboxing). `mount_plan` makes a table of mounts from them.
//!
//! `view(&kept, &path).read_only` is true if the service may not write at the path.

pub mod laws;
mod longest;
mod rules;
mod says;
mod seen;

pub use longest::{origin_above, origin_at};
pub use rules::{Beneath, Fate, fate_of};
pub(crate) use rules::{bind_fate, tmp_fate, unless_optional};
pub use seen::{Seen, view, view_of};
