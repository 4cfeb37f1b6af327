//! Finds the mentions that the rules keep, or the first refusal, path by path in byte order.

ghost use Rattle.std.specs.Prelude.{◌≡◌, ◌++◌, [], true, map, filter, OnOk};
ghost use Rattle.std.specs.List.{filter_map};
ghost use Rattle.path_settings.specs.abs_path.Prefix.{is_prefix};
ghost use Rattle.path_settings.specs.view_map.Object.{object_by};
ghost use Rattle.path_settings.specs.view_map.Kept.{beneath_row, beneath_by, beneath_at, refusal_of, is_kept, kept_among, kept_at, kept_from};
ghost use Rattle.mount_plan.specs.Host.{host_of};
ghost use Rattle.mount_plan.specs.Here.{is_asked, fate_beside};
ghost use Rattle.mount_plan.specs.Answers.{first_of, Refuses, AddsKept, Keeps};

use crate::error::PlanError;
use crate::here::{Part, at_path, fate_beside, is_asked, is_kept, is_put, unbeaten};
use crate::host::{row_at, row_through};
use abs_path::AbsPath;
use path_settings::view_map::{Beneath, Fate, origin_above};
use path_settings::{Kind, Mention};
use site_table::SiteTable;
use std::alloc::{AllocError, Global};

/// Returns what a row, if there is one, is beneath a mention.
pub(crate) fn beneath_row(row: Option<bool>) -> Beneath
    ensures { result ≡ beneath_row row }
{
    match row {
        None => Beneath::NoRow,
        Some(is_dir) => Beneath::Row { is_dir },
    }
}

// Returns what a mention gives at a path that its own path leads to.
fn beneath_mention(site: &SiteTable, mention: &Mention, path: &AbsPath) -> Beneath
    requires { is_prefix mention.now.path path.now ≡ true }
    ensures { result ≡ beneath_by (host_of site.now)
        (object_by mention.now.kind mention.now.path path.now) }
{
    match &mention.kind {
        Kind::Hide => Beneath::Hidden,
        Kind::Tmp { .. } => Beneath::Empty,
        Kind::Bind { source, .. } => beneath_row(row_through(site, source, &mention.path, path)),
        _ => beneath_row(row_at(site, path)),
    }
}

/// Returns what is at the path without the mentions at it. The longest kept mention above it that says which object is
/// there decides.
pub fn beneath_at(site: &SiteTable, kept: &[Mention], path: &AbsPath) -> Beneath
    ensures by_the_longest_above { result ≡ beneath_at (host_of site.now) kept.now path.now }
{
    match origin_above(kept, path) {
        None => beneath_row(row_at(site, path)),
        Some((_, mention)) => beneath_mention(site, mention, path),
    }
}

// Returns the refusal of a mention with this fate, if it is one.
fn refusal(alloc: Global, mention: &Mention, fate: Fate) -> Result<(), PlanError>
    ensures { Refuses (refusal_of mention.now fate) result }
{
    match fate {
        Fate::Kept => Ok(()),
        Fate::Dropped => Ok(()),
        Fate::NoSource => match mention.kind.source() {
            Some(source) => {
                let path = source.copy(alloc)?;
                Err(PlanError::Missing(path))
            }
            None => Ok(()),
        },
        Fate::NoRow => {
            let path = mention.path.copy(alloc)?;
            Err(PlanError::Missing(path))
        }
        Fate::WrongKind => {
            let path = mention.path.copy(alloc)?;
            Err(PlanError::Kind(path))
        }
    }
}

// Returns the first refusal in one part of the mentions at a path.
fn ask(
    alloc: Global,
    site: &SiteTable,
    beneath: Beneath,
    is_put: bool,
    here: &[&Mention],
    part: Part,
) -> Result<(), PlanError>
    ensures { Refuses (first_of (filter_map
        (λ mention. refusal_of mention (fate_beside (host_of site.now) beneath is_put mention))
        (filter (λ mention. is_asked part mention.kind) (map (λ mention. mention.now) here.now)))) result }
{
    for mention in here {
        if is_asked(part, mention) {
            refusal(alloc, mention, fate_beside(site, beneath, is_put, mention))?;
        }
    }
    Ok(())
}

// Adds the mentions at a path whose fate is to be kept.
fn add(
    alloc: Global,
    site: &SiteTable,
    beneath: Beneath,
    is_put: bool,
    here: &[&Mention],
    kept: &mut Vec<Mention>,
) -> Result<(), AllocError>
    ensures { OnOk result (kept.new.items ≡ kept.old.items
        ++ filter (λ mention. is_kept (fate_beside (host_of site.now) beneath is_put mention))
        (map (λ mention. mention.now) here.now)) }
{
    for mention in here {
        if is_kept(fate_beside(site, beneath, is_put, mention)) {
            kept.push(mention.copy(alloc)?)?;
        }
    }
    Ok(())
}

// Adds the mentions at one path that the rules keep, or returns the first refusal.
fn keep(
    alloc: Global,
    site: &SiteTable,
    beneath: Beneath,
    here: &[&Mention],
    kept: &mut Vec<Mention>,
) -> Result<(), PlanError>
    ensures { AddsKept (kept_among (host_of site.now) beneath (map (λ mention. mention.now) here.now))
        kept.old.items kept.new.items result }
{
    let is_put = is_put(site, beneath, here);
    ask(alloc, site, beneath, is_put, here, Part::Origins)?;
    ask(alloc, site, beneath, is_put, here, Part::Flags)?;
    add(alloc, site, beneath, is_put, here, kept)?;
    Ok(())
}

// Adds the mentions at a path that the rules keep, by the mentions that are kept above it.
fn keep_at(
    alloc: Global,
    site: &SiteTable,
    mentions: &[Mention],
    kept: &mut Vec<Mention>,
    path: &AbsPath,
) -> Result<(), PlanError>
    ensures { AddsKept (kept_at (host_of site.now) mentions.now kept.old.items path.now)
        kept.old.items kept.new.items result }
{
    let beneath = beneath_at(site, kept, path);
    let here = at_path(alloc, mentions, path)?;
    let here = unbeaten(alloc, &here)?;
    keep(alloc, site, beneath, &here, kept)
}

/// Returns the mentions that the rules keep at these paths, one path after the other, or the first refusal.
pub fn kept_at_all(
    alloc: Global,
    site: &SiteTable,
    mentions: &[Mention],
    paths: &[AbsPath],
) -> Result<Vec<Mention>, PlanError>
    ensures kept_or_refused { Keeps (kept_from (host_of site.now) mentions.now paths.now []) result }
{
    let mut kept = Vec::new(alloc);
    for path in paths {
        keep_at(alloc, site, mentions, &mut kept, path)?;
    }
    Ok(kept)
}
