//! Whether a policy weighs anything.
ghost use Rattle.std.specs.Prelude.{◌≡◌, ◌&&◌, nat_lt, is_some};
ghost use Rattle.std.specs.List.{list_any};
ghost use Rattle.exposure_score.specs.Badness.{stored_of};
ghost use Rattle.exposure_score.specs.policy_weights.Weights.{is_counted, weight_by};

use crate::CustomTest;
use crate::policy_file::{Policy, PolicyTest};
use crate::service_facts::known_test;
use exec_settings::CallTable;

// Returns whether a stored test has the identifier.
fn is_stored(tests: &[CustomTest], id: &str) -> bool
    ensures { result ≡ is_some (stored_of (λ test. test.id) tests.now id.now) }
{
    for test in tests {
        if test.id() == id {
            return true;
        }
    }
    false
}

// Returns whether settings decide the test of an identifier, or a stored test does.
fn counts(calls: &CallTable, id: &str, tests: &[CustomTest]) -> bool
    ensures { result ≡ is_counted calls.now (λ test. test.id) tests.now id.now }
{
    known_test(id, calls) || is_stored(tests, id)
}

// Returns whether a test counts, and has a weight.
fn adds_weight(calls: &CallTable, test: &PolicyTest, tests: &[CustomTest]) -> bool
    ensures { result ≡ (nat_lt 0 test.now.weight && is_counted calls.now (λ test. test.id) tests.now test.now.id) }
{
    test.weight > 0 && counts(calls, test.id.as_str(), tests)
}

// Returns whether one of these tests counts and has a weight.
fn have_weight(calls: &CallTable, policy: &[PolicyTest], tests: &[CustomTest]) -> bool
    ensures { result ≡ list_any (λ test. nat_lt 0 test.weight && is_counted calls.now (λ test. test.id) tests.now test.id) policy.now }
{
    for test in policy {
        if adds_weight(calls, test, tests) {
            return true;
        }
    }
    false
}

/// Whether the weights of the policy's tests that are not skipped sum to more than nothing, for a table of calls and the tests
/// that are handed in.
pub fn weighs(calls: &CallTable, policy: &Policy, tests: &[CustomTest]) -> bool
    ensures some_weight { result ≡ nat_lt 0 (weight_by calls.now (λ test. test.id) tests.now policy.now) }
{
    have_weight(calls, policy.list(), tests)
}
