//! Laws of scores, each the contract of a function that does nothing.

ghost use Rattle.std.specs.Prelude.{◌≡◌, ℕ, ◌*◌, ◌≤◌, ◌<◌, min};
ghost use Rattle.exposure_score.specs.Arithmetic.{term, exposure, IsRoundedUp};

/// A term is what it should be, rounded up, and so is an exposure.
pub fn rounding()
    ensures term { (badness range weight : ℕ) → 0 < range → IsRoundedUp (min badness range * weight) range (term badness range weight) }
    ensures exposure { (terms weights : ℕ) → 0 < weights → IsRoundedUp (100 * terms) weights (exposure terms weights) }
    ensures only_one { (number divisor one other : ℕ) → IsRoundedUp number divisor one → IsRoundedUp number divisor other → one ≡ other }
{}

/// A term is at most the weight, and an exposure at most 100.
pub fn bounds()
    ensures term { (badness range weight : ℕ) → 0 < range → term badness range weight ≤ weight }
    ensures whole_term { (badness range weight : ℕ) → 0 < range → range ≤ badness → term badness range weight ≡ weight }
    ensures exposure { (terms weights : ℕ) → 0 < weights → terms ≤ weights → exposure terms weights ≤ 100 }
{}
