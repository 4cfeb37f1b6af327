//! Kinds of changes, and how many there are of each.
ghost use Rattle.std.specs.Prelude.{◌≡◌};
ghost use Rattle.effect_command.specs.Lines.{count_of, is_same};

/// A kind of change.
#[derive(Clone, Copy)]
pub enum Kind {
    /// A question that is closed.
    Closed,
    /// A question that is opened.
    Opened,
    /// A folder that is hidden.
    Hidden,
    /// A folder that is shown.
    Shown,
}

fn is_same(one: Kind, other: Kind) -> bool
    ensures { result ≡ is_same one other }
{
    matches!(
        (one, other),
        (Kind::Closed, Kind::Closed)
            | (Kind::Opened, Kind::Opened)
            | (Kind::Hidden, Kind::Hidden)
            | (Kind::Shown, Kind::Shown)
    )
}

/// How many are of a kind.
pub fn count_of(wanted: Kind, kinds: &[Kind]) -> usize
    ensures counts { result ≡ count_of wanted kinds.now }
{
    kinds.iter().filter(|kind| is_same(wanted, **kind)).count()
}
