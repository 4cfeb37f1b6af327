//! The type of a policy, which contracts see as the list of its tests.

use crate::policy_file::identifier::TestId;
use exec_settings::{Held, HeldList};

/// A test of a policy: what its badness may be at most, and what that weighs.
#[derive(Drop)]
pub struct PolicyTest {
    pub id: TestId,
    /// The weight of the test in the sum of weights, 0 to 1,000,000.
    pub weight: u32,
    /// The badness from which on the whole weight counts, 1 to 1,000,000.
    pub range: u32,
}

impl Held for PolicyTest {
    ghost use Rattle.exposure_score.specs.policy_file.Policy.{IsPolicy};

    ghost AreHeld = { IsPolicy };
}

/// At most 512 tests in byte order of their identifiers, all different.
pub type Policy = HeldList<PolicyTest>;
