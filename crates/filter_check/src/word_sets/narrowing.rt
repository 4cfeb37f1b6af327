//! Narrows a set to the words that meet one condition more.
ghost use Rattle.std.specs.Prelude.{◌≡◌, ◌<◌, ◌≤◌, ◌^◌, ◌++◌, ◌∷◌, [], ℕ, ◌&&◌, Option, Some, None, true, false, IfOk};
ghost use Rattle.std.specs.Bool.{OnTrue};
ghost use Rattle.filter_check.specs.word_sets.Conditions.{meets, meets_all};
ghost use Rattle.filter_check.specs.word_sets.Words.{is_in_some, IsLeastWord};

use crate::word_sets::condition::Condition;
use crate::word_sets::known::Cube;
use crate::word_sets::searching::least_of;
use crate::word_sets::set::WordSet;
use std::alloc::{AllocError, Global};

// Makes a list of these conditions and one more.
fn with_one_more(
    alloc: Global,
    conditions: &[Condition],
    condition: Condition,
) -> Result<Vec<Condition>, AllocError>
    ensures { IfOk result (λ more. more.items ≡ conditions.now ++ condition ∷ []) }
{
    let mut more = Vec::with_capacity(alloc, conditions.len())?;
    more.extend_from_slice(conditions)?;
    more.push(condition)?;
    Ok(more)
}

impl WordSet {
    /// Makes the set of all words.
    pub fn all(alloc: Global) -> Self
        ensures every_word { (word : ℕ) → meets_all result.conditions.items word ≡ true }
    {
        WordSet {
            conditions: Vec::new(alloc),
            least: 0,
        }
    }

    /// Copies the set.
    pub fn copy(&self, alloc: Global) -> Result<Self, AllocError>
        ensures same { IfOk result (λ copy. copy.conditions.items ≡ self.now.conditions.items) }
    {
        let mut conditions = Vec::with_capacity(alloc, self.conditions.len())?;
        conditions.extend_from_slice(self.conditions.as_slice())?;
        Ok(WordSet {
            conditions,
            least: self.least,
        })
    }

    /// Returns whether both sets have the same conditions in the same order.
    pub fn has_same_conditions(&self, other: &WordSet) -> bool
        ensures same { OnTrue result (self.now.conditions.items ≡ other.now.conditions.items) }
    {
        self.conditions.as_slice() == other.conditions.as_slice()
    }
}

// Finds the least word that meets all conditions of a set and one more. The list has all of them.
fn least_with(set: &WordSet, condition: Condition, conditions: &[Condition]) -> Option<u32>
    requires more { conditions.now ≡ set.now.conditions.items ++ condition ∷ [] }
    ensures least { IsLeastWord conditions.now result }
{
    if condition.is_met_by(set.least) {
        return Some(set.least);
    }
    least_of(conditions, Cube::all(), set.least, None)
}

/// Keeps the words of a set that meet the condition. Returns None if no word does.
pub fn narrow(
    alloc: Global,
    set: &WordSet,
    condition: Condition,
) -> Result<Option<WordSet>, AllocError>
    ensures those_that_meet { IfOk result (λ some. (word : ℕ) → word < 2 ^ 32 → is_in_some some word ≡ (meets_all set.now.conditions.items word && meets condition word)) }
{
    let conditions = with_one_more(alloc, set.conditions.as_slice(), condition)?;
    match least_with(set, condition, conditions.as_slice()) {
        None => Ok(None),
        Some(least) => Ok(Some(WordSet { conditions, least })),
    }
}
