//! Collects all mentions of a unit's settings.
ghost use Rattle.std.specs.Prelude.{◌≡◌, ◌↔◌, ◌<◌, ◌≤◌, None, Some, not, length, IfOk, IsErrOf, IsTrue};
ghost use Rattle.mount_settings.specs.Protections.{protection_notes};
ghost use Rattle.mount_settings.specs.Settings.{as_written, mentions_of, mentions_in, all_mentions, protections_of};
ghost use Rattle.mount_settings.specs.systemd.Mentions.{sets_no_new_privs};
ghost use Rattle.path_settings.specs.Mentioned.{leaves_the_root, AreShort};
ghost use Rattle.mount_settings.specs.Roots.{root_key as first_root_key};

use crate::error::MountSettingsError;
use crate::implied::bring_implied;
use crate::protections::{Protections, Switches, in_effect, read_protections};
use crate::systemd::{entries_by, further_keys};
use crate::written::{WrittenPath, WrittenPaths};
use dropin_merge::unit_values::Said;
use dropin_merge::{Resolved, Version};
use path_settings::systemd::{MountEntries, MountEntry};
use path_settings::{Mention, MentionError, Mentioned, Mentions};
use site_table::SiteTable;
use std::alloc::{AllocError, Global};

/// The greatest number of written paths.
const MOST_WRITTEN: usize = 128;

/// The mentions of a unit, and its protections.
#[derive(Drop)]
pub struct MountSettings {
    /// The protections that are in effect.
    pub protections: Protections,
    /// The written mentions, and after them the implied ones.
    pub mentions: Mentioned,
}

/// Returns the mentions of the written paths, without the folders.
pub(crate) fn written_mentions(
    alloc: Global,
    paths: &[WrittenPath],
) -> Result<Vec<Mention>, AllocError>
    ensures { IfOk result (λ mentions. mentions.items ≡ as_written paths.now) }
{
    let mut mentions = Vec::new(alloc);
    for path in paths {
        if !path.key.is_implied() {
            mentions.push(path.mention.copy(alloc)?)?;
        }
    }
    Ok(mentions)
}

// Returns the written and the implied mentions by the rules of the base profile.
#[tactic(auto, unfolding(crate::specs::Settings::mentions_of))]
fn base_mentions(
    alloc: Global,
    site: &SiteTable,
    switches: Switches,
    protections: Protections,
    paths: &[WrittenPath],
) -> Result<Vec<Mention>, AllocError>
    ensures { IfOk result (λ mentions. mentions.items ≡ mentions_of site.now switches protections paths.now) }
{
    let mut mentions = written_mentions(alloc, paths)?;
    bring_implied(alloc, site, switches, protections, paths, &mut mentions)?;
    Ok(mentions)
}

// Makes a list of these mentions, of which there are few enough.
fn listed(alloc: Global, mentions: Vec<Mention>) -> Result<Mentions, AllocError>
    requires { length mentions.items ≤ 192 }
    ensures { IfOk result (λ list. list ≡ mentions.items) }
{
    let mut list = Mentions::new(alloc);
    for mention in mentions {
        match list.add(mention) {
            Ok(()) => {}
            Err(MentionError::Memory) => return Err(AllocError),
            Err(MentionError::Full) => unreachable!(),
        }
    }
    Ok(list)
}

// Makes a list of these entries, of which there are few enough.
fn listed_entries(alloc: Global, entries: Vec<MountEntry>) -> Result<MountEntries, AllocError>
    requires { length entries.items ≤ 192 }
    ensures { IfOk result (λ list. list ≡ entries.items) }
{
    let mut list = MountEntries::new(alloc);
    for one in entries {
        match list.add(one) {
            Ok(()) => {}
            Err(MentionError::Memory) => return Err(AllocError),
            Err(MentionError::Full) => unreachable!(),
        }
    }
    Ok(list)
}

// Returns the entries of a unit that this version of systemd reads.
fn version_mentions(
    alloc: Global,
    unit: &Resolved,
    site: &SiteTable,
    version: Version,
    switches: Switches,
    protections: Protections,
    paths: &[WrittenPath],
) -> Result<Mentioned, AllocError>
    requires few { length paths.now ≤ 128 }
    requires in_effect { protections ≡ protections_of unit.now switches }
    ensures { IfOk result (λ mentions. mentions ≡ mentions_in (Some version) unit.now site.now switches paths.now) }
{
    let keys = further_keys(alloc, unit)?;
    let entries = entries_by(alloc, site, version, switches, protections, keys, paths)?;
    Ok(Mentioned::Systemd {
        entries: listed_entries(alloc, entries)?,
        no_new_privs: keys.no_new_privs || switches.dynamic_user,
    })
}

// Returns the written and the implied mentions by the rules of the systemd that reads the unit.
fn all_mentions(
    alloc: Global,
    unit: &Resolved,
    site: &SiteTable,
    switches: Switches,
    protections: Protections,
    paths: &[WrittenPath],
) -> Result<Mentioned, AllocError>
    requires few { length paths.now ≤ 128 }
    requires in_effect { protections ≡ protections_of unit.now switches }
    ensures { IfOk result (λ mentions. mentions ≡ all_mentions unit.now site.now switches paths.now) }
{
    match unit.systemd {
        None => {
            let mentions = base_mentions(alloc, site, switches, protections, paths)?;
            Ok(Mentioned::Base(listed(alloc, mentions)?))
        }
        Some(version) => version_mentions(alloc, unit, site, version, switches, protections, paths),
    }
}

/// Returns the mentions of a unit. First are the written ones, as `written_paths` has them. The mentions that protections
/// and folder keys imply follow them (systemd.exec(5), Sandboxing).
///
/// If a known version of systemd reads the unit, the mentions are its entries. The table of this version has the implied
/// paths, and a service without mounts of its own has none. An implied path is skipped if the site has no row for it, and
/// is optional otherwise. Each path, and each source of a bind, has at most 250 bytes. `mentions_root` says if a key
/// mentions `/`.
///
/// The error is `TooManyPaths` if more than 128 paths are written, including folders that the site does not have. Values
/// of ProtectSystem=, ProtectHome=, PrivateTmp=, ProtectKernelTunables= and ProtectControlGroups= get notes if they
/// cannot be read.
pub fn mount_settings(
    alloc: Global,
    unit: &Resolved,
    paths: &WrittenPaths,
    site: &SiteTable,
    switches: Switches,
) -> Result<Said<MountSettings>, MountSettingsError>
    ensures written_then_implied { IfOk result (λ said. said.what.mentions ≡ all_mentions unit.now site.now switches paths.now) }
    ensures protections_in_effect { IfOk result (λ said. said.what.protections ≡ protections_of unit.now switches) }
    ensures notes_the_unread { IfOk result (λ said. said.notes.items ≡ protection_notes unit.now) }
    ensures leaves_the_root { IfOk result (λ said. first_root_key paths.now ≡ None → IsTrue (leaves_the_root said.what.mentions)) }
    ensures short_paths { IfOk result (λ said. AreShort said.what.mentions) }
    ensures too_many_exactly_above_128 { IsErrOf result MountSettingsError.TooManyPaths ↔ (128 < length paths.now) }
{
    let paths = paths.list();
    if paths.len() > MOST_WRITTEN {
        return Err(MountSettingsError::TooManyPaths);
    }
    let Said { what: said, notes } = read_protections(alloc, unit)?;
    let protections = in_effect(switches.dynamic_user, said);
    let mentions = all_mentions(alloc, unit, site, switches, protections, paths)?;
    let what = MountSettings {
        protections,
        mentions,
    };
    Ok(Said { what, notes })
}
