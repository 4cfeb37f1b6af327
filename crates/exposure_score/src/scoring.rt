//! The score of a service, from its facts and a policy.

ghost use Rattle.std.specs.Prelude.{◌≡◌, ◌<◌, IfOk, OnOk, IfErr};
ghost use Rattle.std.specs.List.{AllZip, AllByRecursion};
ghost use Rattle.exposure_score.specs.policy_file.Policy.{IsTest};
ghost use Rattle.exposure_score.specs.declared.error.ScoreError.TheVariants.{NoWeight};
ghost use Rattle.exposure_score.specs.Facts.{Gives};
ghost use Rattle.exposure_score.specs.Rows.{skipped_row, IsRow, counted_weight, IsScore};

use crate::arithmetic::{exposure, sum_of_terms, sum_of_weights, term};
use crate::badness::badness_of;
use crate::custom_test::{Check, CustomTest};
use crate::error::ScoreError;
use crate::facts::Facts;
use crate::policy_file::{Policy, PolicyTest, TestId};
use crate::rows::{Score, ScoreRow, ScoreRows};
use std::alloc::{AllocError, Global};

// Makes the row of a skipped test.
fn skipped_row(id: TestId) -> ScoreRow
    ensures { result ≡ skipped_row id }
{
    ScoreRow {
        id,
        skipped: true,
        badness: 0,
        range: 0,
        weight: 0,
        term: 0,
    }
}

// Scores one test of a policy.
fn score_row(
    alloc: Global,
    test: &PolicyTest,
    facts: &Facts,
    tests: &[CustomTest],
) -> Result<ScoreRow, AllocError>
    requires { IsTest test.now }
    ensures { IfOk result (IsRow (λ one. one.id) (λ one. Gives (Check.post one.check) one.range facts.now) facts.now.tests tests.now test.now) }
{
    let id = TestId::new(alloc, test.id.as_str())?;
    let Some(badness) = badness_of(test.id.as_str(), facts, tests) else {
        return Ok(skipped_row(id));
    };
    Ok(ScoreRow {
        id,
        skipped: false,
        badness,
        range: test.range,
        weight: test.weight,
        term: term(badness, test.range, test.weight),
    })
}

// Scores the tests of a policy.
fn score_rows(
    alloc: Global,
    policy: &[PolicyTest],
    facts: &Facts,
    tests: &[CustomTest],
) -> Result<Vec<ScoreRow>, AllocError>
    requires { AllByRecursion IsTest policy.now }
    ensures { IfOk result (λ rows. AllZip (IsRow (λ one. one.id) (λ one. Gives (Check.post one.check) one.range facts.now) facts.now.tests tests.now) policy.now rows.items) }
{
    let mut rows = Vec::new(alloc);
    for test in policy {
        rows.push(score_row(alloc, test, facts, tests)?)?;
    }
    Ok(rows)
}

/// Computes the score of a service by a policy: a row for each test, in byte order of identifiers, and the exposure.
///
/// The facts give a test's badness; failing that, the first stored test with its identifier gives it. A test with neither is
/// skipped, and its weight is ignored. A test adds the term `ceil(min(badness, range) * weight / range)`, where `range` is the
/// policy's. The exposure is the sum of these terms in hundredths of the sum of the weights, rounded up.
///
/// Returns `NoWeight` exactly if the weights that count sum to 0. `Memory` is possible for any policy.
pub fn score(
    alloc: Global,
    policy: &Policy,
    facts: &Facts,
    tests: &[CustomTest],
) -> Result<Score, ScoreError>
    ensures weighs_each_test { IfOk result (IsScore (λ one. one.id) (λ one. Gives (Check.post one.check) one.range facts.now) facts.now.tests tests.now policy.now) }
    ensures some_weight { OnOk result (0 < counted_weight (λ one. one.id) facts.now.tests tests.now policy.now) }
    ensures no_weight { IfErr result (λ error. error ≡ NoWeight
        → counted_weight (λ one. one.id) facts.now.tests tests.now policy.now ≡ 0) }
{
    let Ok(rows) = score_rows(alloc, policy.list(), facts, tests) else {
        return Err(ScoreError::Memory);
    };
    let weights = sum_of_weights(&rows);
    if weights == 0 {
        return Err(ScoreError::NoWeight);
    }
    let exposure = exposure(sum_of_terms(&rows), weights);
    Ok(Score {
        rows: ScoreRows::new(rows),
        exposure,
    })
}
