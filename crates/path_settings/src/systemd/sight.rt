//! Says how a service may use the object at the path of a mounted entry.

ghost use Rattle.std.specs.Prelude.{◌≡◌, ◌&&◌, cond, not};
ghost use Rattle.path_settings.specs.systemd.Modes.{is_left, is_private_devices, marks};
ghost use Rattle.path_settings.specs.systemd.Chosen.{is_marked_at};
ghost use Rattle.path_settings.specs.systemd.View.{is_marked_over, is_marked, is_read_only, set_no_exec};

use crate::systemd::chosen::{is_marked_at, nearest_above};
use crate::systemd::entries::MountEntry;
use crate::systemd::modes::Mark;
use abs_path::AbsPath;

// Returns whether some entry at a path, apart from the private /dev, marks it so.
fn is_marked_apart(entries: &[MountEntry], path: &AbsPath, mark: Mark) -> bool
    ensures { result ≡ is_marked_at (λ mode. not (is_private_devices mode) && marks mark mode) entries.now path.now }
{
    entries.iter().any(|one| {
        one.path == *path && (!one.mode.is_private_devices() && one.mode.marks(mark))
    })
}

// Returns whether the entry is a node of a private /dev that is marked so.
fn is_marked_over(entries: &[MountEntry], one: &MountEntry, mark: Mark) -> bool
    ensures { result ≡ is_marked_over (marks mark) entries.now one.now }
{
    if !one.mode.is_node() {
        return false;
    }
    match nearest_above(entries, &one.path) {
        Some(near) => is_marked_apart(entries, &near.path, mark),
        None => false,
    }
}

fn is_marked(entries: &[MountEntry], one: &MountEntry, mark: Mark) -> bool
    ensures { result ≡ is_marked (marks mark) entries.now one.now }
{
    is_marked_at(entries, &one.path, mark) || is_marked_over(entries, one, mark)
}

/// Returns whether the service cannot write at the path of a mounted entry.
pub fn is_read_only(entries: &[MountEntry], one: &MountEntry) -> bool
    ensures by_its_marks { result ≡ is_read_only entries.now one.now }
{
    !one.mode.is_left() && is_marked(entries, one, Mark::ReadOnly)
}

/// Returns whether the service cannot execute files at the path of a mounted entry. `begins` says if nothing can be
/// executed there before any flag is set.
pub fn is_no_exec(entries: &[MountEntry], one: &MountEntry, begins: bool) -> bool
    ensures by_its_marks { result ≡ cond (is_left one.now.mode) begins (set_no_exec entries.now one.now begins) }
{
    if one.mode.is_left() {
        return begins;
    }
    is_marked(entries, one, Mark::NoExec)
        || (begins && !is_marked_at(entries, &one.path, Mark::Exec))
}
