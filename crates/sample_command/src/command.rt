//! The command `sample` and a number.
ghost use Rattle.std.specs.Prelude.{◌≤◌, IsErrOf};
ghost use Rattle.asked_service.specs.unit_inputs.command_answers.Laws.{IsAdmitted};
ghost use Rattle.sample_command.specs.Prints.{status_of, sample_laws, sampled_text};

use crate::judging::judge_sample;
use crate::launching::launch_sample;
use crate::sampled::Sampled;
use asked_service::{CommandError, truths};
use sample_inputs::made;
use sample_inputs::sample_launch::launches_end_well;
use std::alloc::Global;

/// Prepares `sample` and a number from 0 to 999: makes the inputs, settles, plans and launches the unit, asks every question of the
/// service, and counts the answers. It reads nothing, and refuses nothing.
pub fn prepare(alloc: Global, number: u32) -> Result<Sampled, CommandError>
    requires in_range { number ≤ 999 }
    ensures prepares { IsAdmitted (sample_laws number) status_of sampled_text result }
    ensures reads_nothing { IsErrOf result CommandError.ReadFault → ⊥ }
{
    // Why the answers are true, and why nothing is refused.
    truths();
    sample_inputs::sample_launch::settings();
    sample_inputs::sample_launch::plan();
    launches_end_well();
    let inputs = made(alloc, number)?;
    inputs.calls.look_at();
    let service = launch_sample(alloc, &inputs)?;
    let counts = judge_sample(alloc, number, service)?;
    Ok(counts)
}
