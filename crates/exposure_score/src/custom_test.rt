//! Stored tests: tests that are handed in beside the policy.

ghost use Rattle.std.specs.Prelude.{◌≡◌, ℕ, ◌≤◌, List, string_bytes};
ghost use Rattle.exposure_score.specs.StoredTests.{StoredTests, stored_by};

use crate::facts::Facts;
use crate::policy_file::TestId;

/// What a stored test says of facts.
pub type Check = Box<dyn Fn(&Facts) -> u32>;

/// A test that looks at the facts of a service by itself, and answers how bad they are, at most its range.
#[derive(Drop)]
pub struct CustomTest {
    pub id: TestId,
    /// The greatest badness, at least 1.
    pub range: u32,
    pub check: Check,
    pub ghost positive: { 1 ≤ range },
    pub ghost callable: { Check.IsAlwaysCallable check },
    pub ghost bounded: { (facts : _) (answer : ℕ) → Check.post check facts answer → answer ≤ range },
}

impl CustomTest {
    /// The test of this identifier. It may be called on all facts, and answers at most `range`.
    pub fn new(id: String, range: u32, test: Box<dyn Fn(&Facts) -> u32>) -> CustomTest
        requires positive { 1 ≤ range }
        requires callable { IsAlwaysCallable test }
        requires bounded { (facts : _) (answer : ℕ) → post test facts answer → answer ≤ range }
        ensures same_id { result.id ≡ string_bytes id }
        ensures same_range { result.range ≡ range }
        ensures same_answers { result.check ≡ test }
    {
        CustomTest {
            id: TestId::from_string(id),
            range,
            check: test,
        }
    }

    /// The identifier of the test.
    pub fn id(&self) -> &str
        ensures same_id { result.now ≡ self.now.id }
    {
        self.id.as_str()
    }

    /// Returns what the test answers for these facts.
    pub fn answer(&self, facts: &Facts) -> u32
        ensures says { Check.post self.now.check facts.entry result }
        ensures within_range { result ≤ self.now.range }
    {
        (self.check)(facts)
    }
}

/// Tests that are handed in, as contracts see them.
pub trait Stored {
    ghost stored: { List Self → StoredTests };
}

impl Stored for CustomTest {
    ghost stored = { stored_by (λ test. test.id) (λ test. test.range) (λ test. Check.post test.check) };
}
