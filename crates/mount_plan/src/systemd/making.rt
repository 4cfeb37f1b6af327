//! Finds the listed entries that are made, or the first refusal.

ghost use Rattle.std.specs.Prelude.{◌≡◌, ◌||◌, ◌++◌, [], true, not, nat_le, length, map, filter, IfOk, OnOk};
ghost use Rattle.std.specs.List.{cons_option, filter_map, list_all};
ghost use Rattle.std.specs.Option.{option_map};
ghost use Rattle.path_settings.specs.abs_path.Paths.{tail_of};
ghost use Rattle.path_settings.specs.abs_path.Prefix.{is_prefix};
ghost use Rattle.path_settings.specs.view_map.Kept.{beneath_by};
ghost use Rattle.path_settings.specs.systemd.Made.{source_path, source_row, has_source, puts, lies_beneath, is_longest_such, longest_such, object_by, beneath_in, fate_in, refusal_by, node_in, mounted_in};
ghost use Rattle.mount_plan.specs.Host.{host_of};
ghost use Rattle.mount_plan.specs.Answers.{first_of, Refuses};

use crate::error::PlanError;
use crate::here::is_kept;
use crate::host::{row_at, row_through};
use crate::kept::beneath_row;
use abs_path::AbsPath;
use path_settings::systemd::{MountEntry, MountMode, fate_of};
use path_settings::view_map::{Beneath, Fate};
use site_table::SiteTable;
use std::alloc::{AllocError, Global};

// Returns the path on the host that an entry binds from.
fn source_path(one: &MountEntry) -> Option<&AbsPath>
    ensures { option_map (λ path. path.now) result ≡ source_path one.now }
{
    if one.mode.is_node() {
        Some(&one.path)
    } else {
        one.mode.source()
    }
}

fn source_row(site: &SiteTable, one: &MountEntry) -> Option<bool>
    ensures { result ≡ source_row (host_of site.now) one.now }
{
    row_at(site, source_path(one)?)
}

/// Returns whether the source of an entry exists, if it binds from one.
pub(crate) fn has_source(site: &SiteTable, one: &MountEntry) -> bool
    ensures { result ≡ has_source (host_of site.now) one.now }
{
    match source_path(one) {
        Some(path) => row_at(site, path).is_some(),
        None => true,
    }
}

fn puts(site: &SiteTable, one: &MountEntry) -> bool
    ensures { result ≡ puts (host_of site.now) one.now }
{
    (one.mode.is_origin() && !one.mode.hides()) && has_source(site, one)
}

// Adds the entries that put an object at their paths.
fn add_putting<'a>(
    site: &SiteTable,
    from: &[&'a MountEntry],
    found: &mut Vec<&'a MountEntry>,
) -> Result<(), AllocError>
    ensures { OnOk result (map (λ one. one.now) found.new.items
        ≡ map (λ one. one.now) found.old.items ++ filter (puts (host_of site.now)) (map (λ one. one.now) from.now)) }
{
    for one in from {
        if puts(site, *one) {
            found.push(*one)?;
        }
    }
    Ok(())
}

/// Returns the listed entries and the nodes that put an object at their paths.
pub(crate) fn putting<'a>(
    alloc: Global,
    site: &SiteTable,
    listed: &[&'a MountEntry],
    nodes: &[&'a MountEntry],
) -> Result<Vec<&'a MountEntry>, AllocError>
    ensures { IfOk result (λ found. map (λ one. one.now) found.items
        ≡ filter (puts (host_of site.now)) (map (λ one. one.now) listed.now ++ map (λ one. one.now) nodes.now)) }
{
    let mut found = Vec::new(alloc);
    add_putting(site, listed, &mut found)?;
    add_putting(site, nodes, &mut found)?;
    Ok(found)
}

fn lies_beneath(path: &AbsPath, one: &MountEntry) -> bool
    ensures { result ≡ lies_beneath path.now one.now }
{
    path.is_below(&one.path) || (one.mode.is_node() && one.path.is_prefix(path))
}

// Returns whether an entry has as long a path as another one, if that one lies beneath the path.
fn is_as_long(path: &AbsPath, one: &MountEntry, other: &MountEntry) -> bool
    ensures { result ≡ (not (lies_beneath path.now other.now)
        || nat_le (length (tail_of other.now.path)) (length (tail_of one.now.path))) }
{
    !lies_beneath(path, other) || other.path.tail_len() <= one.path.tail_len()
}

// Returns whether an entry has as long a path as each one that lies beneath the path.
fn is_as_long_as_each(putting: &[&MountEntry], path: &AbsPath, one: &MountEntry) -> bool
    ensures { result ≡ list_all (λ other. not (lies_beneath path.now other)
        || nat_le (length (tail_of other.path)) (length (tail_of one.now.path))) (map (λ one. one.now) putting.now) }
{
    putting.iter().all(|other| is_as_long(path, one, *other))
}

fn is_longest_beneath(putting: &[&MountEntry], path: &AbsPath, one: &MountEntry) -> bool
    ensures { result ≡ is_longest_such (lies_beneath path.now) (map (λ one. one.now) putting.now) one.now }
{
    lies_beneath(path, one) && is_as_long_as_each(putting, path, one)
}

/// Returns the entry that puts an object beneath what is mounted at a path: the longest one.
pub(crate) fn longest_beneath<'a>(
    putting: &[&'a MountEntry],
    path: &AbsPath,
) -> Option<&'a MountEntry>
    ensures { option_map (λ one. one.now) result ≡ longest_such (lies_beneath path.now) (map (λ one. one.now) putting.now) }
{
    putting
        .iter()
        .copied()
        .find(|one| is_longest_beneath(putting, path, *one))
}

// Returns what an entry puts at a path that its own path leads to.
fn beneath_entry(site: &SiteTable, one: &MountEntry, path: &AbsPath) -> Beneath
    requires { is_prefix one.now.path path.now ≡ true }
    ensures { result ≡ beneath_by (host_of site.now) (object_by one.now.mode one.now.path path.now) }
{
    match &one.mode {
        MountMode::Hidden => Beneath::Hidden,
        MountMode::Bind { source, .. } => beneath_row(row_through(site, source, &one.path, path)),
        MountMode::RecursiveBind { source, .. } => {
            beneath_row(row_through(site, source, &one.path, path))
        }
        MountMode::DisconnectedTmp
        | MountMode::PrivateTmp
        | MountMode::PrivateDevices
        | MountMode::Tmpfs { .. } => Beneath::Empty,
        _ => beneath_row(row_at(site, path)),
    }
}

/// Returns what is at a path before anything is mounted there.
pub(crate) fn beneath_at(site: &SiteTable, putting: &[&MountEntry], path: &AbsPath) -> Beneath
    ensures { result ≡ beneath_in (host_of site.now) (map (λ one. one.now) putting.now) path.now }
{
    match longest_beneath(putting, path) {
        None => beneath_row(row_at(site, path)),
        Some(one) => beneath_entry(site, one, path),
    }
}

fn fate_at(site: &SiteTable, putting: &[&MountEntry], one: &MountEntry) -> Fate
    ensures { result ≡ fate_in (host_of site.now) (map (λ one. one.now) putting.now) one.now }
{
    fate_of(
        one,
        source_row(site, one),
        beneath_at(site, putting, &one.path),
    )
}

// Returns the refusal of an entry with this fate, if it is one.
fn refusal(alloc: Global, one: &MountEntry, fate: Fate) -> Result<(), PlanError>
    ensures { Refuses (refusal_by one.now fate) result }
{
    match fate {
        Fate::Kept => Ok(()),
        Fate::Dropped => Ok(()),
        Fate::NoSource => match source_path(one) {
            Some(source) => {
                let path = source.copy(alloc)?;
                Err(PlanError::Missing(path))
            }
            None => Ok(()),
        },
        Fate::NoRow => {
            let path = one.path.copy(alloc)?;
            Err(PlanError::Missing(path))
        }
        Fate::WrongKind => {
            let path = one.path.copy(alloc)?;
            Err(PlanError::Kind(path))
        }
    }
}

/// Returns the first refusal of the listed entries.
pub(crate) fn ask_each(
    alloc: Global,
    site: &SiteTable,
    putting: &[&MountEntry],
    listed: &[&MountEntry],
) -> Result<(), PlanError>
    ensures { Refuses (first_of (filter_map
        (λ one. refusal_by one (fate_in (host_of site.now) (map (λ one. one.now) putting.now) one))
        (map (λ one. one.now) listed.now))) result }
{
    for one in listed {
        refusal(alloc, *one, fate_at(site, putting, *one))?;
    }
    Ok(())
}

// Returns the node at a path, if its object exists.
fn node_in<'a>(site: &SiteTable, nodes: &[&'a MountEntry], path: &AbsPath) -> Option<&'a MountEntry>
    ensures { option_map (λ one. one.now) result ≡ node_in (host_of site.now) (map (λ one. one.now) nodes.now) path.now }
{
    nodes
        .iter()
        .copied()
        .find(|one| one.path == *path && has_source(site, *one))
}

// Returns a listed entry if it is mounted, and else the node that stays at its path.
fn mounted_in<'a>(
    site: &SiteTable,
    putting: &[&MountEntry],
    nodes: &[&'a MountEntry],
    one: &'a MountEntry,
) -> Option<&'a MountEntry>
    ensures { option_map (λ one. one.now) result
        ≡ mounted_in (host_of site.now) (map (λ one. one.now) putting.now) (map (λ one. one.now) nodes.now) one.now }
{
    if is_kept(fate_at(site, putting, one)) {
        Some(one)
    } else {
        node_in(site, nodes, &one.path)
    }
}

// Adds an entry, if there is one.
fn add_some<'a>(
    one: Option<&'a MountEntry>,
    found: &mut Vec<&'a MountEntry>,
) -> Result<(), AllocError>
    ensures { OnOk result (map (λ one. one.now) found.new.items
        ≡ map (λ one. one.now) found.old.items ++ cons_option (option_map (λ one. one.now) one.entry) []) }
{
    if let Some(one) = one {
        found.push(one)?;
    }
    Ok(())
}

/// Returns the entries that are mounted, in the order of the listed ones.
pub(crate) fn made<'a>(
    alloc: Global,
    site: &SiteTable,
    putting: &[&MountEntry],
    nodes: &[&'a MountEntry],
    listed: &[&'a MountEntry],
) -> Result<Vec<&'a MountEntry>, AllocError>
    ensures { IfOk result (λ found. map (λ one. one.now) found.items
        ≡ filter_map (mounted_in (host_of site.now) (map (λ one. one.now) putting.now) (map (λ one. one.now) nodes.now))
        (map (λ one. one.now) listed.now)) }
{
    let mut found = Vec::new(alloc);
    for one in listed {
        add_some(mounted_in(site, putting, nodes, *one), &mut found)?;
    }
    Ok(found)
}
