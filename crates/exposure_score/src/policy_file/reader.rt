//! A policy, from its bytes to its tests.

ghost use Rattle.std.specs.Prelude.{◌≡◌, ◌≢◌, Ok, Err, IfOk, IfErr};
ghost use Rattle.serde_json.specs.Find.{as_object};
ghost use Rattle.serde_json.specs.View.{view, members_view};
ghost use Rattle.exposure_score.specs.declared.policy_file.error.PolicyError.TheVariants.{Memory};
ghost use Rattle.exposure_score.specs.policy_file.Reading.{members_of, policy_of_object, policy_of};
ghost use Rattle.exposure_score.specs.policy_file.Steps.{SaysTests, IsUnlessMemory};

use crate::policy_file::error::PolicyError;
use crate::policy_file::member::read_test;
use crate::policy_file::policy::{Policy, PolicyTest};
use serde_json::{Map, Value};
use std::alloc::Global;

/// The most tests that a policy may have.
const MOST_TESTS: usize = 512;

// Reads the members of an object as tests, up to the first member that is not a test.
fn read_tests(alloc: Global, members: &Map<String, Value>) -> Result<Vec<PolicyTest>, PolicyError>
    ensures { SaysTests (members_of (members_view members.now.entries)) result }
{
    let mut tests = Vec::new(alloc);
    for (id, said) in members.iter() {
        let test = read_test(alloc, id.as_str(), said)?;
        tests.push(test).or(Err(PolicyError::Memory))?;
    }
    Ok(tests)
}

// Reads a policy from the tree of its text.
fn read_tree(alloc: Global, tree: &Value) -> Result<Policy, PolicyError>
    ensures { IsUnlessMemory result (policy_of_object (as_object (view tree.now))) }
{
    let Some(members) = tree.as_object() else {
        return Err(PolicyError::NotJson);
    };
    let tests = read_tests(alloc, members)?;
    if members.len() > MOST_TESTS {
        return Err(PolicyError::TooMany);
    }
    Ok(Policy::new(tests))
}

// Reads a policy from its bytes.
fn read_bytes(alloc: Global, bytes: &[u8]) -> Result<Policy, PolicyError>
    ensures { IsUnlessMemory result (policy_of bytes.now) }
{
    match Value::from_slice(alloc, bytes) {
        Ok(tree) => read_tree(alloc, &tree),
        Err(error) => {
            if error.is_memory() {
                Err(PolicyError::Memory)
            } else {
                Err(PolicyError::NotJson)
            }
        }
    }
}

/// Reads a policy.
///
/// It is a JSON object, whose members are the tests: an object with a `weight`, 0 to 1,000,000, that may have a `range`, 1 to
/// 1,000,000, which is else 1. Both are whole numbers, written without a fraction or an exponent. Other members of a test are
/// ignored. If a member occurs twice, the last one counts.
///
/// Returns the first of these errors:
///
/// - `NotJson` if the bytes are not JSON or not an object
/// - `Field` for the first member, in byte order of identifiers, that is not a test
/// - `TooMany` if there are more than 512 tests
///
/// `Memory` is possible whatever the bytes are.
pub fn read_policy(alloc: Global, bytes: &[u8]) -> Result<Policy, PolicyError>
    ensures reads_the_policy { IfOk result (λ policy. policy_of bytes.now ≡ Ok policy) }
    ensures first_fault { IfErr result (λ error. error ≢ Memory → policy_of bytes.now ≡ Err error) }
{
    read_bytes(alloc, bytes)
}
