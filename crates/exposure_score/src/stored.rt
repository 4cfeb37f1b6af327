//! What the two tests say that the program hands in.

ghost use Rattle.std.specs.Prelude.{◌≡◌, ◌≤◌};
ghost use Rattle.exposure_score.specs.Stored.{ambient_count, writable_paths};

use crate::facts::Facts;

/// Returns how many ambient capabilities there are (capabilities(7)), at most 41.
pub fn ambient_count(facts: &Facts) -> u32
    ensures count { result ≡ ambient_count facts.now }
    ensures at_most_all { result ≤ 41 }
{
    (0..41u8).filter(|cap| facts.ambient.contains(*cap)).count() as u32
}

/// Returns how many paths are written or bound, at most 128.
pub fn writable_paths(facts: &Facts) -> u32
    ensures count { result ≡ writable_paths facts.now }
    ensures at_most_128 { result ≤ 128 }
{
    facts.writable_paths.min(128)
}
