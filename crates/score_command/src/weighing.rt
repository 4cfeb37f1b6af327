//! What a policy weighs of a service.
ghost use Rattle.std.specs.Prelude.{◌∷◌, [], IsErrOf};
ghost use Rattle.report_text.specs.exposure_score.Rows.{counted_weight};
ghost use Rattle.unit_inputs.specs.command_answers.CommandErrors.{Prepares};
ghost use Rattle.score_command.specs.Weighed.{IsScoreOf};
ghost use Rattle.score_command.specs.Weights.{weight_refusal};

use report_text::{CustomTest, Facts, Policy, Score, ScoreError, Stored, score};
use std::alloc::Global;
use unit_inputs::command_answers::{CommandError, refuse, refused_line};

/// The score of these facts by the policy of this path, or the line of a policy that weighs nothing.
pub fn weigh(
    alloc: Global,
    path: &str,
    policy: &Policy,
    facts: &Facts,
    tests: &[CustomTest],
) -> Result<Score, CommandError>
    ensures weighs { Prepares (IsScoreOf (⟦<CustomTest as Stored>⟧.stored tests.now) facts.now policy.now)
        (weight_refusal path.now (counted_weight (λ test. test.id) facts.now.tests tests.now policy.now) ∷ []) result }
    ensures reads_nothing { IsErrOf result CommandError.ReadFault → ⊥ }
{
    match score(alloc, policy, facts, tests) {
        Ok(score) => Ok(score),
        Err(ScoreError::NoWeight) => Err(refuse(refused_line(alloc, path, b"no-weight"))),
        Err(ScoreError::Memory) => Err(CommandError::Memory),
    }
}
