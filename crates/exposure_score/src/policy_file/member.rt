//! What one member of a policy says.

ghost use Rattle.std.specs.Prelude.{◌≡◌};
ghost use Rattle.serde_json.specs.View.{view};
ghost use Rattle.exposure_score.specs.policy_file.Tests.{within, weight_of, range_of, numbers_of};
ghost use Rattle.exposure_score.specs.policy_file.Steps.{SaysTest};

use crate::policy_file::error::PolicyError;
use crate::policy_file::identifier::TestId;
use crate::policy_file::policy::PolicyTest;
use serde_json::Value;
use std::alloc::Global;

/// The greatest weight, and the greatest range.
const MOST: u64 = 1_000_000;
/// The range of a test that names none, and the least range.
const ONE: u32 = 1;

// Returns the number if it is from `least` up to the most.
fn within(least: u32, number: u64) -> Option<u32>
    ensures { result ≡ within least number }
{
    if u64::from(least) <= number && number <= MOST {
        Some(number as u32)
    } else {
        None
    }
}

fn weight_of(said: &Value) -> Option<u32>
    ensures { result ≡ weight_of (view said.now) }
{
    within(0, said.get("weight")?.as_u64()?)
}

fn range_of(said: &Value) -> Option<u32>
    ensures { result ≡ range_of (view said.now) }
{
    match said.get("range") {
        Some(range) => within(ONE, range.as_u64()?),
        None => Some(ONE),
    }
}

// Reads the weight and the range.
fn numbers_of(said: &Value) -> Option<(u32, u32)>
    ensures { result ≡ numbers_of (view said.now) }
{
    let weight = weight_of(said)?;
    let range = range_of(said)?;
    Some((weight, range))
}

/// The test of this identifier, by what the policy says of it.
pub fn read_test(alloc: Global, id: &str, said: &Value) -> Result<PolicyTest, PolicyError>
    ensures says_the_test { SaysTest id.now (view said.now) result }
{
    let id = TestId::new(alloc, id).or(Err(PolicyError::Memory))?;
    match numbers_of(said) {
        Some((weight, range)) => Ok(PolicyTest { id, weight, range }),
        None => Err(PolicyError::Field(id)),
    }
}
