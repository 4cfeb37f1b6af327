//! Searches for the least word that meets conditions.
ghost use Rattle.std.specs.Prelude.{◌≡◌, ◌≤◌, ◌<◌, ◌^◌, ℕ, IfSome};
ghost use Rattle.std.specs.Bool.{OnTrue, OnFalse};
ghost use Rattle.filter_check.specs.word_sets.Words.{IsLeastOf, IsUpTo, IsWanted};

use crate::word_sets::choosing::{Choice, choose};
use crate::word_sets::condition::Condition;
use crate::word_sets::known::Cube;

// Returns whether a word was found before that is at most this one.
fn is_up_to(told: Option<u32>, word: u32) -> bool
    ensures yes { OnTrue result (IsUpTo told word) }
    ensures no { OnFalse result (IfSome told (λ one. word < one)) }
{
    match told {
        None => false,
        Some(one) => one <= word,
    }
}

/// Finds the lesser of an earlier word and the least word of a cube that meets all conditions.
///
/// No such word of the cube is below `from`. So the search skips a cube whose words are all below it.
pub fn least_of(conditions: &[Condition], cube: Cube, from: u32, told: Option<u32>) -> Option<u32>
    requires from { (word : ℕ) → IsWanted conditions.now cube word → from ≤ word }
    ensures least { IsLeastOf conditions.now cube told result }
{
    if cube.greatest() < from {
        return told;
    }
    let word = cube.least();
    if is_up_to(told, word) {
        return told;
    }
    match choose(conditions, cube) {
        Choice::Meets => Some(word),
        Choice::Misses => told,
        Choice::Splits(place, _) => {
            let least = least_of(conditions, cube.with_bit(place, false), from, told);
            least_of(conditions, cube.with_bit(place, true), from, least)
        }
    }
}
