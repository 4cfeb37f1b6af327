//! Collects all entries that a unit asks a known version of systemd to mount (systemd.exec(5), Sandboxing).
ghost use Rattle.std.specs.Prelude.{◌≡◌, ◌++◌, map, IfOk, OnOk};
ghost use Rattle.path_settings.specs.systemd.Written.{entry_of};
ghost use Rattle.mount_settings.specs.Settings.{as_written, entries_by};
ghost use Rattle.mount_settings.specs.systemd.Folders.{brought_folders};
ghost use Rattle.mount_settings.specs.systemd.Mentions.{brought, implied_of};

use crate::protections::{Protections, Switches};
use crate::settings::written_mentions;
use crate::systemd::folders::bring_folders;
use crate::systemd::keys::FurtherKeys;
use crate::systemd::own_mounts::has_own_mounts;
use crate::systemd::rows::bring_table;
use crate::written::WrittenPath;
use dropin_merge::Version;
use path_settings::Mention;
use path_settings::systemd::{MountEntry, entry_of};
use site_table::SiteTable;
use std::alloc::{AllocError, Global};

// Adds the entries that these mentions ask for.
fn add_entries(
    alloc: Global,
    mentions: &[Mention],
    entries: &mut Vec<MountEntry>,
) -> Result<(), AllocError>
    ensures { OnOk result (entries.new.items ≡ entries.old.items ++ map entry_of mentions.now) }
{
    for mention in mentions {
        entries.push(entry_of(alloc, mention)?)?;
    }
    Ok(())
}

// Adds the entries of the folders that the site has.
fn add_folders(
    alloc: Global,
    site: &SiteTable,
    switches: Switches,
    keys: FurtherKeys,
    paths: &[WrittenPath],
    entries: &mut Vec<MountEntry>,
) -> Result<(), AllocError>
    ensures { OnOk result (entries.new.items ≡ entries.old.items ++ map entry_of (brought_folders site.now switches keys paths.now)) }
{
    let mut folders = Vec::new(alloc);
    bring_folders(alloc, site, switches, keys, paths, &mut folders)?;
    add_entries(alloc, &folders, entries)
}

// Adds the entries of the table and of the folder keys.
fn bring_all(
    alloc: Global,
    site: &SiteTable,
    version: Version,
    switches: Switches,
    protections: Protections,
    keys: FurtherKeys,
    paths: &[WrittenPath],
    entries: &mut Vec<MountEntry>,
) -> Result<(), AllocError>
    ensures { OnOk result (entries.new.items ≡ entries.old.items ++ brought version site.now switches protections keys paths.now) }
{
    bring_table(alloc, site, version, switches, protections, keys, entries)?;
    add_folders(alloc, site, switches, keys, paths, entries)
}

// Adds the implied entries, if the service has mounts of its own.
#[tactic(auto, unfolding(crate::specs::systemd::Mentions::implied_of))]
fn bring_implied(
    alloc: Global,
    site: &SiteTable,
    version: Version,
    switches: Switches,
    protections: Protections,
    keys: FurtherKeys,
    paths: &[WrittenPath],
    entries: &mut Vec<MountEntry>,
) -> Result<(), AllocError>
    ensures { OnOk result (entries.new.items ≡ entries.old.items ++ implied_of version site.now switches protections keys paths.now) }
{
    if has_own_mounts(version, switches, protections, keys, paths) {
        bring_all(
            alloc,
            site,
            version,
            switches,
            protections,
            keys,
            paths,
            entries,
        )
    } else {
        Ok(())
    }
}

// Returns the entries that the written paths ask for, without the folders.
fn written_entries(alloc: Global, paths: &[WrittenPath]) -> Result<Vec<MountEntry>, AllocError>
    ensures { IfOk result (λ entries. entries.items ≡ map entry_of (as_written paths.now)) }
{
    let mentions = written_mentions(alloc, paths)?;
    let mut entries = Vec::new(alloc);
    add_entries(alloc, &mentions, &mut entries)?;
    Ok(entries)
}

/// Returns the entries that a unit asks for: the written ones, and after them the implied ones.
#[tactic(auto, unfolding(crate::specs::Settings::entries_by))]
pub(crate) fn entries_by(
    alloc: Global,
    site: &SiteTable,
    version: Version,
    switches: Switches,
    protections: Protections,
    keys: FurtherKeys,
    paths: &[WrittenPath],
) -> Result<Vec<MountEntry>, AllocError>
    ensures { IfOk result (λ entries. entries.items ≡ entries_by version site.now switches protections keys paths.now) }
{
    let mut entries = written_entries(alloc, paths)?;
    bring_implied(
        alloc,
        site,
        version,
        switches,
        protections,
        keys,
        paths,
        &mut entries,
    )?;
    Ok(entries)
}
