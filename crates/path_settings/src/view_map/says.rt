//! Says what mentions state about their paths, by their kinds.

ghost use Rattle.std.specs.Prelude.{◌≡◌};
ghost use Rattle.path_settings.specs.view_map.View.{says_read_only, says_read_write};
ghost use Rattle.path_settings.specs.view_map.Scan.{is_said};

use crate::Kind;

/// A statement of a mention.
#[derive(Clone, Copy)]
pub(crate) enum Says {
    /// Which object is at the path.
    Origin,
    ReadOnly,
    ReadWrite,
    NoExec,
    Exec,
}

fn says_read_only(kind: &Kind) -> bool
    ensures { result ≡ says_read_only kind.now }
{
    match kind {
        Kind::Ro => true,
        Kind::Tmp { read_only, .. } | Kind::Bind { read_only, .. } => *read_only,
        _ => false,
    }
}

fn says_read_write(kind: &Kind) -> bool
    ensures { result ≡ says_read_write kind.now }
{
    match kind {
        Kind::Rw => true,
        Kind::Tmp { read_only, .. } | Kind::Bind { read_only, .. } => !*read_only,
        _ => false,
    }
}

/// Returns whether a mention of this kind says this. An empty file system and a bind say whether they are read-only.
pub(crate) fn is_said(says: Says, kind: &Kind) -> bool
    ensures { result ≡ is_said says kind.now }
{
    match says {
        Says::Origin => kind.is_origin(),
        Says::ReadOnly => says_read_only(kind),
        Says::ReadWrite => says_read_write(kind),
        Says::NoExec => matches!(kind, Kind::NoExec),
        Says::Exec => matches!(kind, Kind::Exec),
    }
}
