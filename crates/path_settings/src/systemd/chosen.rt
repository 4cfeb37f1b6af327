//! Chooses one entry for a path, the strongest one there.

ghost use Rattle.std.specs.Prelude.{◌≡◌, ◌||◌, not, nat_le, length};
ghost use Rattle.std.specs.List.{list_all};
ghost use Rattle.std.specs.Option.{option_map};
ghost use Rattle.abs_path.specs.Paths.{tail_of};
ghost use Rattle.abs_path.specs.Prefix.{is_same, is_below};
ghost use Rattle.path_settings.specs.systemd.Modes.{rank, marks};
ghost use Rattle.path_settings.specs.systemd.Chosen.{is_strongest_at, chosen_at, is_marked_at, is_nearest_above, nearest_above};

use crate::systemd::entries::MountEntry;
use crate::systemd::modes::Mark;
use abs_path::AbsPath;

// Returns whether an entry is as strong as another one, if that one is at the path.
fn is_as_strong(path: &AbsPath, one: &MountEntry, other: &MountEntry) -> bool
    ensures { result ≡ (not (is_same other.now.path path.now) || nat_le (rank one.now.mode) (rank other.now.mode)) }
{
    !(other.path == *path) || one.mode.rank() <= other.mode.rank()
}

// Returns whether an entry is as strong as each one at the path.
fn is_as_strong_as_each(entries: &[MountEntry], path: &AbsPath, one: &MountEntry) -> bool
    ensures { result ≡ list_all (λ other. not (is_same other.path path.now) || nat_le (rank one.now.mode) (rank other.mode)) entries.now }
{
    entries.iter().all(|other| is_as_strong(path, one, other))
}

fn is_strongest_at(entries: &[MountEntry], path: &AbsPath, one: &MountEntry) -> bool
    ensures { result ≡ is_strongest_at entries.now path.now one.now }
{
    one.path == *path && is_as_strong_as_each(entries, path, one)
}

/// Returns the strongest of the entries at a path, and the first of equally strong ones.
pub fn chosen_at<'a>(entries: &'a [MountEntry], path: &AbsPath) -> Option<&'a MountEntry>
    ensures strongest_there { option_map (λ one. one.now) result ≡ chosen_at entries.now path.now }
{
    entries
        .iter()
        .find(|one| is_strongest_at(entries, path, *one))
}

/// Returns whether some entry at a path marks it so.
pub fn is_marked_at(entries: &[MountEntry], path: &AbsPath, mark: Mark) -> bool
    ensures by_some_entry { result ≡ is_marked_at (marks mark) entries.now path.now }
{
    entries
        .iter()
        .any(|one| one.path == *path && one.mode.marks(mark))
}

// Returns whether an entry has as long a path as another one, if that one is above the path.
fn is_as_near(path: &AbsPath, one: &MountEntry, other: &MountEntry) -> bool
    ensures { result ≡ (not (is_below path.now other.now.path)
        || nat_le (length (tail_of other.now.path)) (length (tail_of one.now.path))) }
{
    !path.is_below(&other.path) || other.path.tail_len() <= one.path.tail_len()
}

// Returns whether an entry has as long a path as each one above the path.
fn is_as_near_as_each(entries: &[MountEntry], path: &AbsPath, one: &MountEntry) -> bool
    ensures { result ≡ list_all (λ other. not (is_below path.now other.path)
        || nat_le (length (tail_of other.path)) (length (tail_of one.now.path))) entries.now }
{
    entries.iter().all(|other| is_as_near(path, one, other))
}

fn is_nearest_above(entries: &[MountEntry], path: &AbsPath, one: &MountEntry) -> bool
    ensures { result ≡ is_nearest_above entries.now path.now one.now }
{
    path.is_below(&one.path) && is_as_near_as_each(entries, path, one)
}

/// Returns an entry at the longest path above a path that has one.
pub fn nearest_above<'a>(entries: &'a [MountEntry], path: &AbsPath) -> Option<&'a MountEntry>
    ensures longest_above { option_map (λ one. one.now) result ≡ nearest_above entries.now path.now }
{
    entries
        .iter()
        .find(|one| is_nearest_above(entries, path, *one))
}
