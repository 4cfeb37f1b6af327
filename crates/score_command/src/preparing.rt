//! What `score` reads, and what it takes from that.
ghost use Rattle.std.specs.Prelude.{IfOk};
ghost use Rattle.unit_inputs.specs.host_io.Agreeing.{ForFiles};
ghost use Rattle.unit_inputs.specs.command_answers.Asking.{course};
ghost use Rattle.unit_inputs.specs.command_answers.CommandErrors.{Prepares};
ghost use Rattle.unit_inputs.specs.Asking.{AsksInOrder, asks_with_file};
ghost use Rattle.unit_inputs.specs.ReadsFor.{ReadsFor};
ghost use Rattle.score_command.specs.Prepared.{CanBeWeighed, IsPrepared};
ghost use Rattle.score_command.specs.Refusals.{read_refusals};

use crate::policies::read_policy;
use host_io::Shelf;
use report_text::{Policy, accepted_units_write_few_paths};
use std::alloc::Global;
use unit_inputs::command_answers::CommandError;
use unit_inputs::{SettledUnit, read_inputs, settle};

/// All that a score is made from.
#[derive(Drop)]
pub struct Prepared {
    /// The unit with its settings.
    pub unit: SettledUnit,
    /// The policy.
    pub policy: Policy,
}

/// Reads the unit, calls.txt, site.toml and the policy, and finds the first refusal of them and of the settings.
pub fn read_all<S: Shelf>(
    alloc: Global,
    shelf: &mut S,
    unit: &str,
    policy: &str,
) -> Result<Prepared, CommandError>
    ensures can_be_weighed { IfOk result CanBeWeighed }
    ensures prepares { ForFiles (S.agrees shelf.new) (λ files. Prepares (IsPrepared files unit.now policy.now) (read_refusals files unit.now policy.now) result) }
    ensures asks_in_order { AsksInOrder S.asks (S.agrees shelf.new) (λ files. asks_with_file files unit.now policy.now) shelf.old shelf.new (course result) }
    ensures reads_for_the_unit { ReadsFor S.agrees S.faults unit.now shelf.old shelf.new result }
{
    let inputs = read_inputs(alloc, shelf, unit)?;
    let weights = read_policy(alloc, shelf, policy)?;
    let one = settle(alloc, unit, inputs)?;
    accepted_units_write_few_paths();
    Ok(Prepared {
        unit: one,
        policy: weights,
    })
}
