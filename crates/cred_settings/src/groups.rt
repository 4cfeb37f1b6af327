//! Reads Group=, the group that a service runs as (systemd.exec(5)).
ghost use Rattle.std.specs.Prelude.{◌≡◌, option_copied};
ghost use Rattle.cred_settings.specs.Groups.{group_with, gid_meant, gid_numbered};

use crate::ids::read_id;
use site_table::{Group, SiteTable, Version};

// Returns the first group of the site with this gid.
fn group_with(site: &SiteTable, gid: u32) -> Option<&Group>
    ensures { option_copied result ≡ group_with site.now.groups gid }
{
    site.groups().iter().find(|group| group.gid == gid)
}

// Returns the group of a number. A version of systemd requires a group of the site with this number.
fn gid_numbered(systemd: Option<Version>, site: &SiteTable, number: Option<u32>) -> Option<u32>
    ensures { result ≡ gid_numbered systemd site.now number }
{
    if systemd.is_none() {
        return number;
    }
    match group_with(site, number?) {
        Some(group) => Some(group.gid),
        None => None,
    }
}

/// Returns the group that a word names: a group of the site by its name, else a number. For a version of systemd a group
/// of the site must have this number.
pub fn gid_meant(systemd: Option<Version>, site: &SiteTable, word: &str) -> Option<u32>
    ensures gid_or_none { result ≡ gid_meant systemd site.now word.now }
{
    match site.group(word) {
        Some(group) => Some(group.gid),
        None => gid_numbered(systemd, site, read_id(word)),
    }
}
