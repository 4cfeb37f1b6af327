//! How bad a service is by one test.

ghost use Rattle.std.specs.Prelude.{◌≡◌, find, option_copied};
ghost use Rattle.std.specs.Str.{bytes_eq};
ghost use Rattle.exposure_score.specs.Facts.{Gives};
ghost use Rattle.exposure_score.specs.Badness.{fact_of, HasBadness};

use crate::custom_test::{Check, CustomTest};
use crate::facts::{Fact, Facts};

// Finds the fact of an identifier.
fn fact_of<'a>(facts: &'a Facts, id: &str) -> Option<&'a Fact>
    ensures { option_copied result ≡ fact_of facts.now.tests id.now }
{
    facts
        .tests
        .list()
        .iter()
        .find(|fact| fact.id.as_str() == id)
}

// Finds the first stored test of an identifier.
fn stored_of<'a>(tests: &'a [CustomTest], id: &str) -> Option<&'a CustomTest>
    ensures { option_copied result ≡ find (λ test. bytes_eq test.id id.now) tests.now }
{
    for test in tests {
        if test.id() == id {
            return Some(test);
        }
    }
    None
}

/// The badness of the test of an identifier: by the facts, else by the first stored test of it; None where
/// there is neither.
pub fn badness_of(id: &str, facts: &Facts, tests: &[CustomTest]) -> Option<u32>
    ensures by_fact_or_test { HasBadness (λ test. test.id) (λ test. Gives (Check.post test.check) test.range facts.now)
        facts.now.tests tests.now id.now result }
{
    match fact_of(facts, id) {
        Some(fact) => Some(fact.badness),
        None => Some(stored_of(tests, id)?.answer(facts)),
    }
}
