//! Adds the folders of a service as systemd 252 and 257 do (systemd.exec(5), RuntimeDirectory=, StateDirectory=).
ghost use Rattle.std.specs.Prelude.{◌≡◌, ◌++◌, [], ◌∷◌, codes, IfOk, OnOk, string_bytes};
ghost use Rattle.std.specs.Option.{option_map};
ghost use Rattle.mount_settings.specs.systemd.Folders.{shown_path, private_below, runtime_folder, folder_of_users, private_path, stands_for, chosen_path, from_source, placed_folder, brought_folders};

use crate::effects::has_row;
use crate::protections::Switches;
use crate::systemd::keys::FurtherKeys;
use crate::written::WrittenPath;
use abs_path::AbsPath;
use path_settings::{Kind, Mention, PathKey, read_setting_path};
use site_table::SiteTable;
use std::alloc::{AllocError, Global};

// Returns the path of the object that a mention shows.
fn shown_path(mention: &Mention) -> &AbsPath
    ensures { result.now ≡ shown_path mention.now }
{
    mention.kind.source().unwrap_or(&mention.path)
}

fn private_text(alloc: Global, folder: &str, rest: &str) -> Result<String, AllocError>
    ensures { IfOk result (λ text. string_bytes text ≡ folder.now ++ codes "/private" ++ rest.now) }
{
    let mut text = String::new(alloc);
    text.push_str(folder)?;
    text.push_str("/private")?;
    text.push_str(rest)?;
    Ok(text)
}

// Returns the path below `private` that a dynamic user has in place of a path below this folder.
fn private_below(alloc: Global, folder: &str, path: &AbsPath) -> Result<Option<AbsPath>, AllocError>
    ensures { IfOk result (λ private. private ≡ private_below folder.now path.now) }
{
    let Some(front) = read_setting_path(alloc, folder)? else {
        return Ok(None);
    };
    let Some(rest) = front.rest(path) else {
        return Ok(None);
    };
    let text = private_text(alloc, folder, rest)?;
    read_setting_path(alloc, &text)
}

fn runtime_folder(kept: bool) -> Option<&'static str>
    ensures { option_map (λ folder. folder.now) result ≡ runtime_folder kept }
{
    if kept { Some("/run") } else { None }
}

// Returns the folder of a key whose folder `private` holds the folders of dynamic users.
fn folder_of_users(kept: bool, key: PathKey) -> Option<&'static str>
    ensures { option_map (λ folder. folder.now) result ≡ folder_of_users kept key }
{
    match key {
        PathKey::StateDirectory => Some("/var/lib"),
        PathKey::CacheDirectory => Some("/var/cache"),
        PathKey::LogsDirectory => Some("/var/log"),
        PathKey::RuntimeDirectory => runtime_folder(kept),
        _ => None,
    }
}

fn private_path(
    alloc: Global,
    switches: Switches,
    keys: FurtherKeys,
    path: &WrittenPath,
) -> Result<Option<AbsPath>, AllocError>
    ensures { IfOk result (λ private. private ≡ private_path switches keys path.now) }
{
    if !switches.dynamic_user {
        return Ok(None);
    }
    match folder_of_users(keys.keeps_runtime, path.key) {
        Some(folder) => private_below(alloc, folder, shown_path(&path.mention)),
        None => Ok(None),
    }
}

fn stands_for(site: &SiteTable, private: &AbsPath, own: &AbsPath) -> bool
    ensures { result ≡ stands_for site.now private.now own.now }
{
    has_row(site, private) && !has_row(site, own)
}

fn chosen_path(
    alloc: Global,
    site: &SiteTable,
    own: &AbsPath,
    private: Option<AbsPath>,
) -> Result<AbsPath, AllocError>
    ensures { IfOk result (λ path. path ≡ chosen_path site.now own.now private) }
{
    match private {
        Some(private) if stands_for(site, &private, own) => Ok(private),
        _ => own.copy(alloc),
    }
}

fn from_source(alloc: Global, source: AbsPath, kind: &Kind) -> Result<Kind, AllocError>
    ensures { IfOk result (λ from. from ≡ from_source source kind.now) }
{
    match kind {
        Kind::Bind {
            source: _,
            read_only,
            recursive,
        } => Ok(Kind::Bind {
            source,
            read_only: *read_only,
            recursive: *recursive,
        }),
        other => other.copy(alloc),
    }
}

fn placed_folder(
    alloc: Global,
    site: &SiteTable,
    switches: Switches,
    keys: FurtherKeys,
    path: &WrittenPath,
) -> Result<Mention, AllocError>
    ensures { IfOk result (λ mention. mention ≡ placed_folder site.now switches keys path.now) }
{
    let mention = &path.mention;
    let private = private_path(alloc, switches, keys, path)?;
    let source = chosen_path(alloc, site, shown_path(mention), private)?;
    let kind = from_source(alloc, source, &mention.kind)?;
    Ok(Mention {
        path: mention.path.copy(alloc)?,
        kind,
        optional: mention.optional,
    })
}

// Adds the folder of a path, if the path is a folder and the site has it.
fn bring_folder(
    alloc: Global,
    site: &SiteTable,
    switches: Switches,
    keys: FurtherKeys,
    path: &WrittenPath,
    mentions: &mut Vec<Mention>,
) -> Result<(), AllocError>
    ensures { OnOk result (mentions.new.items ≡ mentions.old.items ++ brought_folders site.now switches keys (path.now ∷ [])) }
{
    if !path.key.is_implied() {
        return Ok(());
    }
    let mention = placed_folder(alloc, site, switches, keys, path)?;
    if has_row(site, shown_path(&mention)) {
        mentions.push(mention)?;
    }
    Ok(())
}

/// Adds the folders that the site has.
pub(crate) fn bring_folders(
    alloc: Global,
    site: &SiteTable,
    switches: Switches,
    keys: FurtherKeys,
    paths: &[WrittenPath],
    mentions: &mut Vec<Mention>,
) -> Result<(), AllocError>
    ensures { OnOk result (mentions.new.items ≡ mentions.old.items ++ brought_folders site.now switches keys paths.now) }
{
    for path in paths {
        bring_folder(alloc, site, switches, keys, path, mentions)?;
    }
    Ok(())
}
