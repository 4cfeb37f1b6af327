//! Adds the mentions that protections and folder keys imply.
ghost use Rattle.std.specs.Prelude.{◌≡◌, ◌++◌, filter, OnOk};
ghost use Rattle.mount_settings.specs.Effects.{stands};
ghost use Rattle.mount_settings.specs.Written.{of_key};
ghost use Rattle.mount_settings.specs.Implied.{joined, by_folders, implied};

use crate::effects::has_row;
use crate::protections::{Protections, Switches};
use crate::table::{bring_files, bring_kernel};
use crate::written::{WrittenPath, is_key};
use path_settings::{Mention, PathKey};
use site_table::SiteTable;
use std::alloc::{AllocError, Global};

// Adds the folders of a key that the site has.
fn bring_folders(
    alloc: Global,
    site: &SiteTable,
    key: PathKey,
    paths: &[WrittenPath],
    mentions: &mut Vec<Mention>,
) -> Result<(), AllocError>
    ensures { OnOk result (mentions.new.items ≡ mentions.old.items ++ filter (stands site.now) (of_key key paths.now)) }
{
    for path in paths {
        if is_key(path.key, key) && has_row(site, &path.mention.path) {
            mentions.push(path.mention.copy(alloc)?)?;
        }
    }
    Ok(())
}

fn bring_all_folders(
    alloc: Global,
    site: &SiteTable,
    paths: &[WrittenPath],
    mentions: &mut Vec<Mention>,
) -> Result<(), AllocError>
    ensures { OnOk result (mentions.new.items ≡ mentions.old.items ++ filter (stands site.now) (joined (by_folders paths.now))) }
{
    bring_folders(alloc, site, PathKey::StateDirectory, paths, mentions)?;
    bring_folders(alloc, site, PathKey::RuntimeDirectory, paths, mentions)?;
    bring_folders(alloc, site, PathKey::CacheDirectory, paths, mentions)?;
    bring_folders(alloc, site, PathKey::LogsDirectory, paths, mentions)
}

/// Adds the mentions that protections and folder keys imply at paths of the site.
#[tactic(auto, unfolding(crate::specs::Implied::implied))]
pub(crate) fn bring_implied(
    alloc: Global,
    site: &SiteTable,
    switches: Switches,
    protections: Protections,
    paths: &[WrittenPath],
    mentions: &mut Vec<Mention>,
) -> Result<(), AllocError>
    ensures { OnOk result (mentions.new.items ≡ mentions.old.items ++ implied site.now switches protections paths.now) }
{
    bring_files(alloc, site, switches, protections, mentions)?;
    bring_kernel(alloc, site, switches, protections, mentions)?;
    bring_all_folders(alloc, site, paths, mentions)
}
