//! Lists the chosen entries that are not hidden and say something new.

ghost use Rattle.std.specs.Prelude.{◌≡◌, ◌&&◌, not};
ghost use Rattle.std.specs.Option.{option_map};
ghost use Rattle.path_settings.specs.systemd.Modes.{is_node};
ghost use Rattle.path_settings.specs.systemd.Listed.{is_covered, chosen_above, is_vain_below, is_vain, listed_at};

use crate::systemd::chosen::{chosen_at, nearest_above};
use crate::systemd::entries::MountEntry;
use abs_path::AbsPath;

fn is_covered(entries: &[MountEntry], path: &AbsPath) -> bool
    ensures { result ≡ is_covered entries.now path.now }
{
    entries
        .iter()
        .any(|other| other.mode.hides() && path.is_below(&other.path))
}

fn chosen_above<'a>(entries: &'a [MountEntry], path: &AbsPath) -> Option<&'a MountEntry>
    ensures { option_map (λ one. one.now) result ≡ chosen_above entries.now path.now }
{
    match nearest_above(entries, path) {
        Some(near) => chosen_at(entries, &near.path),
        None => None,
    }
}

fn is_vain_below(one: &MountEntry, over: &MountEntry) -> bool
    ensures { result ≡ is_vain_below one.now over.now }
{
    one.mode.grants_the_same(&over.mode) || (one.mode.is_node() && !over.mode.is_private_devices())
}

fn is_vain(entries: &[MountEntry], one: &MountEntry) -> bool
    ensures { result ≡ is_vain entries.now one.now }
{
    match chosen_above(entries, &one.path) {
        Some(over) => is_vain_below(one, over),
        None => one.mode.is_node(),
    }
}

/// Returns whether an entry is a node of a private /dev that is chosen.
pub fn is_live_node(entries: &[MountEntry], one: &MountEntry) -> bool
    ensures below_a_private_dev { result ≡ (is_node one.now.mode && not (is_vain entries.now one.now)) }
{
    one.mode.is_node() && !is_vain(entries, one)
}

/// Returns the entry that is listed at a path. None if the path has no entry, lies below a hidden one, or has an entry
/// that says nothing new.
pub fn listed_at<'a>(entries: &'a [MountEntry], path: &AbsPath) -> Option<&'a MountEntry>
    ensures one_for_a_path { option_map (λ one. one.now) result ≡ listed_at entries.now path.now }
{
    if is_covered(entries, path) {
        return None;
    }
    match chosen_at(entries, path) {
        Some(one) if !is_vain(entries, one) => Some(one),
        _ => None,
    }
}
