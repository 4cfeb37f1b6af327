//! Finds the entries that are listed, and the nodes of the private /dev.

ghost use Rattle.std.specs.Prelude.{◌≡◌, map, IfOk, OnOk};
ghost use Rattle.std.specs.List.{filter_map};
ghost use Rattle.path_settings.specs.abs_path.ByteOrder.{with_placed};
ghost use Rattle.path_settings.specs.systemd.Listed.{listed_at, listed};
ghost use Rattle.path_settings.specs.systemd.Made.{nodes};

use abs_path::{AbsPath, put};
use path_settings::systemd::{MountEntry, is_live_node, listed_at};
use std::alloc::{AllocError, Global};

// Puts the paths of the entries at their places in a list in byte order.
fn put_paths(
    alloc: Global,
    paths: &mut Vec<AbsPath>,
    entries: &[MountEntry],
) -> Result<(), AllocError>
    ensures { OnOk result (paths.new.items ≡ with_placed paths.old.items (map (λ one. one.path) entries.now)) }
{
    for one in entries {
        put(alloc, paths, &one.path)?;
    }
    Ok(())
}

// Returns the entries that are listed at these paths.
fn listed_at_all<'a>(
    alloc: Global,
    entries: &'a [MountEntry],
    paths: &[AbsPath],
) -> Result<Vec<&'a MountEntry>, AllocError>
    ensures { IfOk result (λ found. map (λ one. one.now) found.items ≡ filter_map (listed_at entries.now) paths.now) }
{
    let mut found = Vec::new(alloc);
    for path in paths {
        if let Some(one) = listed_at(entries, path) {
            found.push(one)?;
        }
    }
    Ok(found)
}

/// Returns the listed entries, in byte order of their paths.
pub(crate) fn listed<'a>(
    alloc: Global,
    entries: &'a [MountEntry],
) -> Result<Vec<&'a MountEntry>, AllocError>
    ensures { IfOk result (λ found. map (λ one. one.now) found.items ≡ listed entries.now) }
{
    let mut paths = Vec::new(alloc);
    put_paths(alloc, &mut paths, entries)?;
    listed_at_all(alloc, entries, &paths)
}

/// Returns the nodes of a private /dev that is chosen.
pub(crate) fn nodes<'a>(
    alloc: Global,
    entries: &'a [MountEntry],
) -> Result<Vec<&'a MountEntry>, AllocError>
    ensures { IfOk result (λ found. map (λ one. one.now) found.items ≡ nodes entries.now) }
{
    entries
        .iter()
        .filter(|one| is_live_node(entries, *one))
        .collect(alloc)
}
