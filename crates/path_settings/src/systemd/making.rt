//! Decides the fate of a listed entry by the object beneath it.

ghost use Rattle.std.specs.Prelude.{◌≡◌};
ghost use Rattle.path_settings.specs.view_map.Rules.{unless_optional, bind_fate, tmp_fate};
ghost use Rattle.path_settings.specs.systemd.Made.{there_fate, fate_of};

use crate::systemd::entries::MountEntry;
use crate::systemd::modes::MountMode;
use crate::view_map::{Beneath, Fate, bind_fate, tmp_fate, unless_optional};

fn there_fate(beneath: Beneath, optional: bool) -> Fate
    ensures { result ≡ there_fate beneath optional }
{
    match beneath {
        Beneath::Row { .. } => Fate::Kept,
        _ => unless_optional(optional, Fate::NoRow),
    }
}

/// Returns the fate of a listed entry. `source` says if the source of a bind or of a node is a row, and then if it is a
/// directory.
pub fn fate_of(one: &MountEntry, source: Option<bool>, beneath: Beneath) -> Fate
    ensures by_its_mode { result ≡ fate_of source beneath one.now }
{
    match &one.mode {
        MountMode::Bind { .. } | MountMode::RecursiveBind { .. } | MountMode::Node => {
            bind_fate(source, beneath, one.optional)
        }
        MountMode::DisconnectedTmp
        | MountMode::PrivateTmp
        | MountMode::PrivateDevices
        | MountMode::Tmpfs { .. } => tmp_fate(beneath),
        _ => there_fate(beneath, one.optional),
    }
}
