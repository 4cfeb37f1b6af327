//! Finds the mentions at one path that no other mention there beats, and the fate of each.

ghost use Rattle.std.specs.Prelude.{◌≡◌, map, IfOk};
ghost use Rattle.std.specs.List.{list_any};
ghost use Rattle.path_settings.specs.Mentions.{hides, is_tmp, is_bind};
ghost use Rattle.path_settings.specs.view_map.Kept.{at_path, is_beaten, unbeaten, is_kept, source_row, puts};
ghost use Rattle.mount_plan.specs.Host.{host_of};
ghost use Rattle.mount_plan.specs.Here.{is_asked, fate_beside};

use crate::host::row_at;
use abs_path::AbsPath;
use path_settings::view_map::{Beneath, Fate, fate_of};
use path_settings::{Kind, Mention};
use site_table::SiteTable;
use std::alloc::{AllocError, Global};

/// The two parts of the mentions at a path, in the order in which the rules treat them.
#[derive(Clone, Copy)]
pub enum Part {
    /// The mentions that say which object is at the path.
    Origins,
    /// The mentions that say how the object may be used.
    Flags,
}

/// Returns the mentions at the path, in written order.
pub fn at_path<'a>(
    alloc: Global,
    mentions: &'a [Mention],
    path: &AbsPath,
) -> Result<Vec<&'a Mention>, AllocError>
    ensures those_at_the_path { IfOk result (λ found.
        map (λ mention. mention.now) found.items ≡ at_path path.now mentions.now) }
{
    mentions
        .iter()
        .filter(|mention| mention.path == *path)
        .collect(alloc)
}

fn any_hides(here: &[&Mention]) -> bool
    ensures { result ≡ list_any (λ mention. hides mention.kind) (map (λ mention. mention.now) here.now) }
{
    here.iter().any(|mention| mention.kind.hides())
}

fn any_is_tmp(here: &[&Mention]) -> bool
    ensures { result ≡ list_any (λ mention. is_tmp mention.kind) (map (λ mention. mention.now) here.now) }
{
    here.iter().any(|mention| mention.kind.is_tmp())
}

fn any_is_bind(here: &[&Mention]) -> bool
    ensures { result ≡ list_any (λ mention. is_bind mention.kind) (map (λ mention. mention.now) here.now) }
{
    here.iter().any(|mention| mention.kind.is_bind())
}

// Returns whether one of the mentions here beats a mention of this kind. Among binds a later one beats it.
fn is_beaten(here: &[&Mention], later: &[&Mention], kind: &Kind) -> bool
    ensures { result ≡ is_beaten
        (map (λ mention. mention.now) here.now) (map (λ mention. mention.now) later.now) kind.now }
{
    ((kind.is_tmp() || kind.is_bind()) && any_hides(here))
        || (kind.is_bind() && (any_is_tmp(here) || any_is_bind(later)))
}

/// Returns the mentions at one path that no other mention there beats.
pub fn unbeaten<'a>(alloc: Global, here: &[&'a Mention]) -> Result<Vec<&'a Mention>, AllocError>
    ensures none_is_beaten { IfOk result (λ found. map (λ mention. mention.now) found.items
        ≡ unbeaten (map (λ mention. mention.now) here.now)) }
{
    let mut found = Vec::new(alloc);
    for (index, mention) in here.iter().enumerate() {
        let mention: &Mention = mention;
        if !is_beaten(here, &here[index + 1..], &mention.kind) {
            found.push(mention)?;
        }
    }
    Ok(found)
}

/// Returns whether the mention is in this part.
pub fn is_asked(part: Part, mention: &Mention) -> bool
    ensures of_its_part { result ≡ is_asked part mention.now.kind }
{
    match part {
        Part::Origins => mention.kind.is_origin(),
        Part::Flags => !mention.kind.is_origin(),
    }
}

// Returns whether the site has a row at the source of a bind, and then whether it is a directory.
fn source_row(site: &SiteTable, kind: &Kind) -> Option<bool>
    ensures { result ≡ source_row (host_of site.now) kind.now }
{
    row_at(site, kind.source()?)
}

/// Returns the fate of a mention. `is_put` says if an empty file system or a bind is kept at its path.
pub fn fate_beside(site: &SiteTable, beneath: Beneath, is_put: bool, mention: &Mention) -> Fate
    ensures by_the_host { result ≡ fate_beside (host_of site.now) beneath is_put mention.now }
{
    fate_of(mention, source_row(site, &mention.kind), beneath, is_put)
}

/// Returns whether a mention with this fate is kept.
pub fn is_kept(fate: Fate) -> bool
    ensures by_its_fate { result ≡ is_kept fate }
{
    matches!(fate, Fate::Kept)
}

// Returns whether the mention is an empty file system or a bind, and is kept.
fn puts(site: &SiteTable, beneath: Beneath, mention: &Mention) -> bool
    ensures { result ≡ puts (host_of site.now) beneath mention.now }
{
    (mention.kind.is_tmp() || mention.kind.is_bind())
        && is_kept(fate_beside(site, beneath, true, mention))
}

/// Returns whether an empty file system or a bind is kept at the path of these mentions.
pub fn is_put(site: &SiteTable, beneath: Beneath, here: &[&Mention]) -> bool
    ensures some_is_put { result ≡ list_any (puts (host_of site.now) beneath) (map (λ mention. mention.now) here.now) }
{
    here.iter().any(|mention| puts(site, beneath, mention))
}
