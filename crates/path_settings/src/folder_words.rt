//! Reads words of StateDirectory= and the other folder keys as systemd 252 and 257 do (systemd.exec(5)).

ghost use Rattle.std.specs.Prelude.{◌≡◌, IfOk, map, string_bytes};
ghost use Rattle.std.specs.Option.{option_map};
ghost use Rattle.path_settings.specs.FolderWords.{folder_of, has_links, mark_of, marked, ends_of_folder, path_below, is_private, public_path, shown_at, with_link, folder_mentions, one_mention, word_below, mentions_of_word};

use crate::binds::pieces;
use crate::dialect::Dialect;
use crate::folders::{is_relative, text_below};
use crate::keys::{PathKey, read_mention};
use crate::mentions::{Kind, Mention};
use crate::paths::read_setting_path;
use abs_path::AbsPath;
use std::alloc::{AllocError, Global};

fn folder_of(key: PathKey) -> Option<&'static str>
    ensures { option_map (λ folder. folder.now) result ≡ folder_of key }
{
    match key {
        PathKey::StateDirectory => Some("/var/lib"),
        PathKey::RuntimeDirectory => Some("/run"),
        PathKey::CacheDirectory => Some("/var/cache"),
        PathKey::LogsDirectory => Some("/var/log"),
        PathKey::ConfigurationDirectory => Some("/etc"),
        _ => None,
    }
}

fn has_links(key: PathKey) -> bool
    ensures { result ≡ has_links key }
{
    !matches!(key, PathKey::ConfigurationDirectory)
}

// Returns whether a mark says that a folder is read-only.
fn mark_of(mark: &str) -> Option<bool>
    ensures { result ≡ mark_of mark.now }
{
    match mark {
        "" => Some(false),
        "ro" => Some(true),
        _ => None,
    }
}

// Returns the texts of the name and of the link, and whether the folder is read-only.
fn ends_of_folder<'a>(
    may_link: bool,
    may_mark: bool,
    pieces: &[&'a str],
) -> Option<(&'a str, &'a str, bool)>
    ensures { option_map (λ ends. (ends.0.now, ends.1.now, ends.2)) result ≡ ends_of_folder may_link may_mark (map (λ piece. piece.now) pieces.now) }
{
    match pieces {
        [name] => Some((*name, "", false)),
        [name, link] if may_link => Some((*name, *link, false)),
        [name, link, mark] if may_link && may_mark => {
            let read_only = mark_of(*mark)?;
            Some((*name, *link, read_only))
        }
        _ => None,
    }
}

fn path_below(alloc: Global, folder: &str, name: &str) -> Result<Option<AbsPath>, AllocError>
    ensures { IfOk result (λ path. path ≡ path_below folder.now name.now) }
{
    if !is_relative(name) {
        return Ok(None);
    }
    let text = text_below(alloc, folder, name)?;
    read_setting_path(alloc, &text)
}

// Returns whether a path is the folder `private`, which holds the folders of dynamic users, or is below it.
fn is_private(alloc: Global, folder: &str, path: &AbsPath) -> Result<bool, AllocError>
    ensures { IfOk result (λ is. is ≡ is_private folder.now path.now) }
{
    let text = text_below(alloc, folder, "private")?;
    match &read_setting_path(alloc, &text)? {
        Some(front) => Ok(front.is_prefix(path)),
        None => Ok(false),
    }
}

fn public_path(alloc: Global, folder: &str, name: &str) -> Result<Option<AbsPath>, AllocError>
    ensures { IfOk result (λ path. path ≡ public_path folder.now name.now) }
{
    let Some(path) = path_below(alloc, folder, name)? else {
        return Ok(None);
    };
    if is_private(alloc, folder, &path)? {
        return Ok(None);
    }
    Ok(Some(path))
}

fn shown_at(
    alloc: Global,
    read_only: bool,
    source: &AbsPath,
    path: AbsPath,
) -> Result<Mention, AllocError>
    ensures { IfOk result (λ mention. mention ≡ shown_at read_only source.now path) }
{
    let source = source.copy(alloc)?;
    Ok(Mention {
        path,
        kind: Kind::Bind {
            source,
            read_only,
            recursive: true,
        },
        optional: true,
    })
}

fn with_link(
    alloc: Global,
    folder: &str,
    link: &str,
    read_only: bool,
    path: &AbsPath,
) -> Result<Option<Vec<Mention>>, AllocError>
    ensures { IfOk result (λ mentions. option_map (λ list. list.items) mentions ≡ with_link folder.now link.now read_only path.now) }
{
    let mut mentions = Vec::new(alloc);
    mentions.push(shown_at(alloc, read_only, path, path.copy(alloc)?)?)?;
    if link.is_empty() {
        return Ok(Some(mentions));
    }
    let Some(place) = path_below(alloc, folder, link)? else {
        return Ok(None);
    };
    mentions.push(shown_at(alloc, read_only, path, place)?)?;
    Ok(Some(mentions))
}

fn folder_mentions(
    alloc: Global,
    folder: &str,
    name: &str,
    link: &str,
    read_only: bool,
) -> Result<Option<Vec<Mention>>, AllocError>
    ensures { IfOk result (λ mentions. option_map (λ list. list.items) mentions ≡ folder_mentions folder.now (name.now, link.now, read_only)) }
{
    match &public_path(alloc, folder, name)? {
        Some(path) => with_link(alloc, folder, link, read_only, path),
        None => Ok(None),
    }
}

fn one_mention(alloc: Global, key: PathKey, word: &str) -> Result<Option<Vec<Mention>>, AllocError>
    ensures { IfOk result (λ mentions. option_map (λ list. list.items) mentions ≡ one_mention key word.now) }
{
    let Some(mention) = read_mention(alloc, key, word)? else {
        return Ok(None);
    };
    let mut mentions = Vec::new(alloc);
    mentions.push(mention)?;
    Ok(Some(mentions))
}

fn word_below(
    alloc: Global,
    may_mark: bool,
    key: PathKey,
    word: &str,
) -> Result<Option<Vec<Mention>>, AllocError>
    ensures { IfOk result (λ mentions. option_map (λ list. list.items) mentions ≡ word_below may_mark key word.now (folder_of key)) }
{
    let Some(folder) = folder_of(key) else {
        return one_mention(alloc, key, word);
    };
    let pieces = pieces(alloc, word)?;
    match ends_of_folder(has_links(key), may_mark, &pieces) {
        Some((name, link, read_only)) => folder_mentions(alloc, folder, name, link, read_only),
        None => Ok(None),
    }
}

/// Reads the mentions of a word of a key's list. A word gives one mention, and a folder with a link gives two. None if
/// the word cannot be read.
pub fn read_mentions(
    alloc: Global,
    dialect: Dialect,
    key: PathKey,
    word: &str,
) -> Result<Option<Vec<Mention>>, AllocError>
    ensures mentions_or_none { IfOk result (λ mentions. option_map (λ list. list.items) mentions ≡ mentions_of_word dialect key word.now) }
{
    match dialect {
        Dialect::Base => one_mention(alloc, key, word),
        Dialect::Systemd252 => word_below(alloc, false, key, word),
        Dialect::Systemd257 => word_below(alloc, true, key, word),
    }
}
