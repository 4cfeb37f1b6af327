//! Reads the paths that a unit's settings mention, and says what the service finds at a path.
//!
//! `read_mention(alloc, PathKey::ReadOnlyPaths, "-/srv")?` is an optional mention that `/srv` is read-only. Other keys are
//! `BindPaths=`, `TemporaryFileSystem=` and `StateDirectory=` (systemd.exec(5)); [`ALL_PATH_KEYS`] lists them all.
//!
//! - [`laws`]: laws of the keys and of the mentions that are read.
//! - [`view_map`]: what a service finds at a path, by the rules of the base profile.
//! - [`systemd`]: what systemd 252 and 257 mount at a path.
#![tactic(auto)]

mod binds;
mod dialect;
mod error;
mod folder_words;
mod folders;
mod keys;
pub mod laws;
mod lists;
mod marks;
mod mentioned;
mod mentions;
mod paths;
pub mod systemd;
mod temporary;
pub mod view_map;

pub use binds::read_bind;
pub use dialect::Dialect;
pub use error::MentionError;
pub use folder_words::read_mentions;
pub use folders::read_folder;
pub use keys::{ALL_PATH_KEYS, PathKey, read_mention};
pub use lists::read_path;
pub use mentioned::Mentioned;
pub use mentions::{Kind, Mention, Mentions};
pub use paths::read_setting_path;
pub use temporary::read_temporary;
pub use text_forms::item_list::{Held, HeldList, ItemList};
pub use text_forms::read_bool;
