//! Collects what a unit asks a known version of systemd to mount.
//!
//! - `words` and `keys`: what further keys say about the mounts.
//! - `rows`: what each protection mounts, and where.
//! - `folders`: the folders of the service.
//! - `own_mounts`: whether the service has mounts of its own.
//! - `mentions`: all entries.

mod folders;
mod keys;
mod mentions;
mod own_mounts;
mod rows;
mod words;

pub(crate) use keys::{further_keys, read_groups};
pub(crate) use mentions::entries_by;
