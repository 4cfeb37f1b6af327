//! Chooses the next step of the search for the least word.
//!
//! If the least word of a cube fails a condition, the bits that are not known under the condition's mask decide. The search
//! splits on the condition with the fewest of them, so that a bit without a choice is set at once.
ghost use Rattle.std.specs.Prelude.{◌≡◌, ◌<◌, ◌^◌, ◌++◌, ◌∷◌, [], ℕ, List, IfSome, IfNone, true, false, bit_and};
ghost use Rattle.std.specs.Bool.{OnTrue};
ghost use Rattle.filter_check.specs.declared.word_sets.condition.Condition as listed;
ghost use Rattle.filter_check.specs.declared.word_sets.known.Cube as known;
ghost use Rattle.filter_check.specs.word_sets.Conditions.{meets};
ghost use Rattle.filter_check.specs.word_sets.Words.{is_in, is_set, IsChoice};

use crate::word_sets::condition::Condition;
use crate::word_sets::known::Cube;

/// The next step of the search.
#[derive(Clone, Copy)]
pub enum Choice {
    /// The least word of the cube meets all conditions.
    Meets,
    /// No word of the cube meets all conditions.
    Misses,
    /// The bit at this place is not known. The number counts the unknown bits under the condition's mask.
    Splits(u32, u32),
}

// Says whether the bounds of a cube and its known bits leave no word that meets the condition.
fn misses(condition: Condition, cube: Cube) -> bool
    ensures { OnTrue result ((word : ℕ) → word < 2 ^ 32 → is_in cube word ≡ true → meets condition word ≡ false) }
{
    let low = cube.bits & condition.mask;
    let high = cube.greatest() & condition.mask;
    if condition.orders.below && low < condition.number {
        return false;
    }
    if condition.orders.above && condition.number < high {
        return false;
    }
    if !condition.orders.equal {
        return true;
    }
    condition.number & cube.known != low || condition.number & condition.mask != condition.number
}

// Returns the bits under a mask that are not known.
fn free_bits(mask: u32, known: u32) -> u32
    ensures unknown { (place : ℕ) → place < 32 → is_set result place ≡ true → is_set known place ≡ false }
    ensures none { result ≡ 0 → (word bits : ℕ) → bit_and word known ≡ bits → bit_and word mask ≡ bit_and bits mask }
    ensures small { result < 2 ^ 32 }
{
    mask & !known
}

// Finds the place of a word's highest 1.
fn highest_place(word: u32) -> Option<u32>
    ensures set { IfSome result (λ place. (place < 32) × (is_set word place ≡ true)) }
    ensures none { IfNone result (word ≡ 0) }
{
    if word == 0 {
        return None;
    }
    Some(31 - word.leading_zeros())
}

// Chooses the place with fewer bits that are not known.
fn with_place(chosen: Choice, place: u32, free: u32) -> Choice
    ensures chooses { (before : List listed.Condition) (condition : listed.Condition) (cube : known.Cube) → IsChoice before cube chosen → place < 32 → is_set cube.known place ≡ false → IsChoice (before ++ condition ∷ []) cube result }
{
    match chosen {
        Choice::Meets => Choice::Splits(place, free),
        Choice::Misses => Choice::Misses,
        Choice::Splits(old, fewest) => {
            if free < fewest {
                Choice::Splits(place, free)
            } else {
                Choice::Splits(old, fewest)
            }
        }
    }
}

// Returns the next step with one more condition.
fn with_condition(chosen: Choice, condition: Condition, cube: Cube) -> Choice
    ensures chooses { (before : List listed.Condition) → IsChoice before cube chosen → IsChoice (before ++ condition ∷ []) cube result }
{
    if condition.is_met_by(cube.bits) {
        return chosen;
    }
    if misses(condition, cube) {
        return Choice::Misses;
    }
    let free = free_bits(condition.mask, cube.known);
    match highest_place(free) {
        None => Choice::Misses,
        Some(place) => with_place(chosen, place, free.count_ones()),
    }
}

/// Returns the next step of the search at a cube.
pub fn choose(conditions: &[Condition], cube: Cube) -> Choice
    ensures chooses { IsChoice conditions.now cube result }
{
    let mut chosen = Choice::Meets;
    for condition in conditions {
        chosen = with_condition(chosen, *condition, cube);
    }
    chosen
}
