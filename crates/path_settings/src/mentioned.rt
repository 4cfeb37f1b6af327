//! Keeps what the settings of a unit say about paths, by the rules that read them.

ghost use Rattle.std.specs.Prelude.{◌≡◌};
ghost use Rattle.path_settings.specs.Mentioned.{leaves_the_root};

use crate::mentions::Mentions;
use crate::systemd::MountEntries;

/// What the settings of a unit say about paths.
#[derive(Drop)]
pub enum Mentioned {
    /// By the rules of the base profile.
    Base(Mentions),
    /// By the rules of systemd 252 or 257.
    Systemd {
        entries: MountEntries,
        /// Whether NoNewPrivileges= or DynamicUser= sets no_new_privs. Then programs on the mounts of the service have no set-id bits
        /// and no capabilities.
        no_new_privs: bool,
    },
}

impl Mentioned {
    /// Returns whether nothing hides the root, empties it or puts another object there.
    pub fn leaves_the_root(&self) -> bool
        ensures root_is_the_hosts { result ≡ leaves_the_root self.now }
    {
        match self {
            Mentioned::Base(mentions) => mentions.leaves_the_root(),
            Mentioned::Systemd { entries, .. } => entries.leaves_the_root(),
        }
    }
}
