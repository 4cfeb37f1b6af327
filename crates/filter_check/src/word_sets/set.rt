//! Defines the words that meet some conditions.
ghost use Rattle.std.specs.Prelude.{◌≡◌, ◌<◌, ◌≤◌, ◌^◌, ℕ, true};
ghost use Rattle.filter_check.specs.word_sets.Conditions.{meets_all};

use crate::word_sets::condition::Condition;

/// The words that meet all of these conditions, and the least of them. There is at least one.
#[derive(Drop)]
pub struct WordSet {
    pub conditions: Vec<Condition>,
    pub least: u32,
    ghost is_one: { meets_all conditions.items least ≡ true },
    ghost is_least: { (word : ℕ) → word < 2 ^ 32 → meets_all conditions.items word ≡ true → least ≤ word },
}
