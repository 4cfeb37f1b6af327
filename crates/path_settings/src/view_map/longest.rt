//! Finds the longest of the mentions that lead to a path and say one thing.

ghost use Rattle.std.specs.Prelude.{◌≡◌, option_map};
ghost use Rattle.path_settings.specs.view_map.View.{leading_to, above, longest};
ghost use Rattle.path_settings.specs.view_map.Scan.{is_said, longer, shown};
ghost use Rattle.path_settings.specs.Mentions.{is_origin};

use crate::Mention;
use crate::view_map::says::{Says, is_said};
use abs_path::AbsPath;

// Returns the longer of two mentions, or the first on a tie.
fn longer<'a>(
    best: Option<(usize, &'a Mention)>,
    index: usize,
    mention: &'a Mention,
) -> Option<(usize, &'a Mention)>
    ensures { option_map shown result ≡ longer (option_map shown best.entry) (index, mention.now) }
{
    match best {
        Some((_, other)) if other.path.tail_len() >= mention.path.tail_len() => best,
        _ => Some((index, mention)),
    }
}

/// Returns the longest of the mentions that say this and lead to the path, or the first on a tie, with its position.
pub(crate) fn longest<'a>(
    kept: &'a [Mention],
    path: &AbsPath,
    says: Says,
) -> Option<(usize, &'a Mention)>
    ensures { option_map shown result ≡ longest (is_said says) (leading_to path.now kept.now) }
{
    let mut best: Option<(usize, &Mention)> = None;
    for (index, mention) in kept.iter().enumerate() {
        if mention.path.is_prefix(path) && is_said(says, &mention.kind) {
            best = longer(best, index, mention);
        }
    }
    best
}

/// Returns the kept mention that says which object is at the path, with its position: the longest one at the path or
/// above it.
pub fn origin_at<'a>(kept: &'a [Mention], path: &AbsPath) -> Option<(usize, &'a Mention)>
    ensures longest_at_or_above { option_map shown result ≡ longest is_origin (leading_to path.now kept.now) }
{
    longest(kept, path, Says::Origin)
}

/// Returns the kept mention that would say which object is at the path if there were none at the path itself, with its
/// position: the longest one above the path.
pub fn origin_above<'a>(kept: &'a [Mention], path: &AbsPath) -> Option<(usize, &'a Mention)>
    ensures longest_above { option_map shown result ≡ longest is_origin (above path.now kept.now) }
{
    let mut best: Option<(usize, &Mention)> = None;
    for (index, mention) in kept.iter().enumerate() {
        if path.is_below(&mention.path) && mention.kind.is_origin() {
            best = longer(best, index, mention);
        }
    }
    best
}
