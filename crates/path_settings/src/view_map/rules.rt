//! Decides the fate of a mention by what the kept mentions above its path give there.

ghost use Rattle.std.specs.Prelude.{◌≡◌};
ghost use Rattle.path_settings.specs.view_map.Rules.{unless_optional, bind_fate, tmp_fate, hide_fate, flag_fate, seen_fate, fate_of};

use crate::{Kind, Mention};

/// Says what the kept mentions above a path give at the path.
#[derive(Clone, Copy, Debug, PartialEq, Eq)]
pub enum Beneath {
    /// The path lies below a hidden path.
    Hidden,
    /// The path lies below an empty file system.
    Empty,
    /// The path is a row of the host, or a bind shows a row of the host there.
    Row { is_dir: bool },
    /// There is no row.
    NoRow,
}

/// The fate of a mention.
#[derive(Clone, Copy, Debug, PartialEq, Eq)]
pub enum Fate {
    Kept,
    Dropped,
    /// The mention is refused: the source of the bind is not a row.
    NoSource,
    /// The mention is refused: its path is not a row.
    NoRow,
    /// The mention is refused: a directory would cover a file, or a file a directory.
    WrongKind,
}

/// Returns the refusal, unless the mention is optional: then it is dropped.
pub(crate) fn unless_optional(optional: bool, refusal: Fate) -> Fate
    ensures { result ≡ unless_optional optional refusal }
{
    if optional { Fate::Dropped } else { refusal }
}

/// Returns the fate of a bind. Its source must be a row of the same kind as the row that it covers.
pub(crate) fn bind_fate(source: Option<bool>, beneath: Beneath, optional: bool) -> Fate
    ensures { result ≡ bind_fate source beneath optional }
{
    let Some(source_is_dir) = source else {
        return unless_optional(optional, Fate::NoSource);
    };
    match beneath {
        Beneath::Row { is_dir } if source_is_dir != is_dir => Fate::WrongKind,
        _ => Fate::Kept,
    }
}

/// Returns the fate of an empty file system, which must not cover a file.
pub(crate) fn tmp_fate(beneath: Beneath) -> Fate
    ensures { result ≡ tmp_fate beneath }
{
    match beneath {
        Beneath::Row { is_dir: false } => Fate::WrongKind,
        _ => Fate::Kept,
    }
}

// Returns the fate of a mention that hides. There must be a row, or an empty file system above the path.
fn hide_fate(beneath: Beneath, optional: bool) -> Fate
    ensures { result ≡ hide_fate beneath optional }
{
    match beneath {
        Beneath::NoRow => unless_optional(optional, Fate::NoRow),
        _ => Fate::Kept,
    }
}

// Returns the fate of a flag. There must be a row, or an empty file system or a bind that is kept at the path.
fn flag_fate(beneath: Beneath, optional: bool, is_put: bool) -> Fate
    ensures { result ≡ flag_fate beneath optional is_put }
{
    if is_put {
        return Fate::Kept;
    }
    match beneath {
        Beneath::Empty => Fate::Dropped,
        Beneath::NoRow => unless_optional(optional, Fate::NoRow),
        _ => Fate::Kept,
    }
}

fn seen_fate(mention: &Mention, source: Option<bool>, beneath: Beneath, is_put: bool) -> Fate
    ensures { result ≡ seen_fate source beneath is_put mention.now.optional mention.now.kind }
{
    match &mention.kind {
        Kind::Bind { .. } => bind_fate(source, beneath, mention.optional),
        Kind::Tmp { .. } => tmp_fate(beneath),
        Kind::Hide => hide_fate(beneath, mention.optional),
        _ => flag_fate(beneath, mention.optional, is_put),
    }
}

/// Returns the fate of a mention that no other mention at its path beats. `source` says if the source of a bind is a
/// row, and then if it is a directory. `is_put` says if an empty file system or a bind is kept at the path.
pub fn fate_of(mention: &Mention, source: Option<bool>, beneath: Beneath, is_put: bool) -> Fate
    ensures by_the_rules { result ≡ fate_of source beneath is_put mention.now }
{
    match beneath {
        Beneath::Hidden => Fate::Dropped,
        _ => seen_fate(mention, source, beneath, is_put),
    }
}
