//! Makes the view at a path: three choices, each by the longest kept mention that leads there.

ghost use Rattle.std.specs.Prelude.{◌≡◌, option_map};
ghost use Rattle.path_settings.specs.view_map.View.{leading_to, prevails, origin_of, is_read_only, is_no_exec};
ghost use Rattle.path_settings.specs.view_map.Scan.{is_said, reaches_as_far, shown};

use crate::view_map::longest::{longest, origin_at};
use crate::view_map::says::Says;
use crate::{Mention, Mentions};
use abs_path::AbsPath;

/// What a service sees at a path.
#[derive(Clone, Copy, Debug, PartialEq, Eq)]
pub struct Seen {
    /// The position of the kept mention that says which object is there, the first on a tie. None means the host's own object.
    pub origin: Option<usize>,
    pub read_only: bool,
    pub no_exec: bool,
}

fn origin(kept: &[Mention], path: &AbsPath) -> Option<usize>
    ensures { result ≡ option_map (λ one. one.0) (origin_of kept.now path.now) }
{
    origin_at(kept, path).map(|(index, _)| index)
}

fn reaches_as_far(one: Option<(usize, &Mention)>, other: Option<(usize, &Mention)>) -> bool
    ensures { result ≡ reaches_as_far (option_map shown one.entry) (option_map shown other.entry) }
{
    match (one, other) {
        (None, _) => false,
        (Some(_), None) => true,
        (Some((_, one)), Some((_, other))) => other.path.tail_len() <= one.path.tail_len(),
    }
}

// Returns whether some mention that leads to the path and says the one thing is as long as each that denies it.
fn prevails(kept: &[Mention], path: &AbsPath, says: Says, denies: Says) -> bool
    ensures { result ≡ prevails (is_said says) (is_said denies) (leading_to path.now kept.now) }
{
    reaches_as_far(longest(kept, path, says), longest(kept, path, denies))
}

/// Returns the view at the path by the kept mentions (systemd.exec(5)). The longest mention that leads there decides each
/// of three questions: which object is there, whether it is read-only (RO against RW), and whether it is executable
/// (EXEC against NOEXEC). On a tie the first mention, RO and NOEXEC win. Without a mention the host's object is there,
/// read-write and executable.
pub fn view(kept: &Mentions, path: &AbsPath) -> Seen
    ensures origin_by_longest { result.origin ≡ option_map (λ one. one.0) (origin_of kept.now path.now) }
    ensures read_only_on_a_tie { result.read_only ≡ is_read_only kept.now path.now }
    ensures no_exec_on_a_tie { result.no_exec ≡ is_no_exec kept.now path.now }
{
    view_of(kept.list(), path)
}

/// Returns the same view, by the kept mentions in a slice.
pub fn view_of(kept: &[Mention], path: &AbsPath) -> Seen
    ensures origin_by_longest { result.origin ≡ option_map (λ one. one.0) (origin_of kept.now path.now) }
    ensures read_only_on_a_tie { result.read_only ≡ is_read_only kept.now path.now }
    ensures no_exec_on_a_tie { result.no_exec ≡ is_no_exec kept.now path.now }
{
    Seen {
        origin: origin(kept, path),
        read_only: prevails(kept, path, Says::ReadOnly, Says::ReadWrite),
        no_exec: prevails(kept, path, Says::NoExec, Says::Exec),
    }
}
