//! Says what a protection does at a path.
ghost use Rattle.std.specs.Prelude.{◌≡◌, ◌++◌, [], map, filter, IfOk, OnOk};
ghost use Rattle.std.specs.List.{cons_option};
ghost use Rattle.mount_settings.specs.Effects.{kind_at, mention_at, brings, has_row, stands};

use abs_path::AbsPath;
use path_settings::{Kind, Mention, read_setting_path};
use site_table::SiteTable;
use std::alloc::{AllocError, Global};

/// Says what a protection does at a path.
#[derive(Clone, Copy)]
pub(crate) enum Effect {
    ReadOnly,
    Writable,
    NotExecutable,
    Hidden,
    Empty { read_only: bool },
    /// The host's object is visible there, even below an empty file system.
    Shown,
}

fn kind_at(alloc: Global, effect: Effect, path: &AbsPath) -> Result<Kind, AllocError>
    ensures { IfOk result (λ kind. kind ≡ kind_at effect path.now) }
{
    Ok(match effect {
        Effect::ReadOnly => Kind::Ro,
        Effect::Writable => Kind::Rw,
        Effect::NotExecutable => Kind::NoExec,
        Effect::Hidden => Kind::Hide,
        Effect::Empty { read_only } => Kind::Tmp {
            read_only,
            no_exec: false,
            no_suid: false,
        },
        Effect::Shown => Kind::Bind {
            source: path.copy(alloc)?,
            read_only: false,
            recursive: true,
        },
    })
}

/// Returns whether the site has a row at a path.
pub(crate) fn has_row(site: &SiteTable, path: &AbsPath) -> bool
    ensures { result ≡ has_row site.now path.now }
{
    site.find(path, "").is_some()
}

// Adds the mention of what a protection does at a path, if the text is a path and the site has a row for it.
fn bring_one(
    alloc: Global,
    site: &SiteTable,
    effect: Effect,
    text: &str,
    mentions: &mut Vec<Mention>,
) -> Result<(), AllocError>
    ensures { OnOk result (mentions.new.items ≡ mentions.old.items ++ filter (stands site.now) (cons_option (mention_at effect text.now) [])) }
{
    let Some(path) = read_setting_path(alloc, text)? else {
        return Ok(());
    };
    if has_row(site, &path) {
        let kind = kind_at(alloc, effect, &path)?;
        mentions.push(Mention {
            path,
            kind,
            optional: true,
        })?;
    }
    Ok(())
}

/// Adds the mentions of what a protection does at these paths, if the site has rows for them.
pub(crate) fn bring(
    alloc: Global,
    site: &SiteTable,
    effect: Effect,
    texts: &[&str],
    mentions: &mut Vec<Mention>,
) -> Result<(), AllocError>
    ensures { OnOk result (mentions.new.items ≡ mentions.old.items ++ filter (stands site.now) (brings effect (map (λ text. text.now) texts.now))) }
{
    for text in texts {
        bring_one(alloc, site, effect, text, mentions)?;
    }
    Ok(())
}
