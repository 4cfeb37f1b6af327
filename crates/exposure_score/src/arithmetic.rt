//! The sums of a score, which fit their types since a policy has at most 512 tests with weights of at most 1,000,000.

ghost use Rattle.std.specs.Prelude.{◌≡◌, ◌≤◌, ◌<◌, length, sum_by};
ghost use Rattle.exposure_score.specs.Arithmetic.{term, exposure};

use crate::rows::ScoreRow;

/// The part of a weight that a badness counts for.
pub fn term(badness: u32, range: u32, weight: u32) -> u32
    requires { 0 < range }
    ensures by_weight { result ≡ term badness range weight }
{
    let counted = u64::from(badness.min(range)) * u64::from(weight);
    counted.div_ceil(u64::from(range)) as u32
}

/// The sum of the weights.
pub fn sum_of_weights(rows: &[ScoreRow]) -> u64
    requires { length rows.now ≤ 512 }
    ensures the_sum { result ≡ sum_by (λ row. row.weight) rows.now }
{
    rows.iter().map(|row| u64::from(row.weight)).sum()
}

/// The sum of the terms.
pub fn sum_of_terms(rows: &[ScoreRow]) -> u64
    requires { length rows.now ≤ 512 }
    ensures the_sum { result ≡ sum_by (λ row. row.term) rows.now }
{
    rows.iter().map(|row| u64::from(row.term)).sum()
}

/// The part of all weights that counts, in hundredths.
pub fn exposure(terms: u64, weights: u64) -> u32
    requires part { terms ≤ weights }
    requires some { 0 < weights }
    requires fits { weights ≤ 512000000 }
    ensures in_hundredths { result ≡ exposure terms weights }
{
    (100 * terms).div_ceil(weights) as u32
}
