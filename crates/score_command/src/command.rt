//! The command `score`, the name of a unit and the path of a policy.
ghost use Rattle.std.specs.Prelude.{IfOk};
ghost use Rattle.unit_inputs.specs.command_answers.Asking.{course};
ghost use Rattle.unit_inputs.specs.command_answers.Laws.{IsAdmitted, laws_over};
ghost use Rattle.report_text.specs.exposure_score.service_facts.Facts.{AreFacts};
ghost use Rattle.unit_inputs.specs.Asking.{AsksInOrder, asks_with_file};
ghost use Rattle.unit_inputs.specs.ReadsFor.{ReadsFor};
ghost use Rattle.score_command.specs.Prepared.{CanBeWeighed, inputs_in};
ghost use Rattle.score_command.specs.Prints.{status_of, score_laws, scored_text};

use crate::preparing::{Prepared, read_all};
use crate::ready::Scored;
use crate::weighing::weigh;
use host_io::Shelf;
use report_text::{CustomTest, Facts, Stored, facts};
use std::alloc::{AllocError, Global};
use unit_inputs::command_answers::CommandError;

// What is known of the settings that are prepared.
fn facts_of(alloc: Global, prepared: &Prepared) -> Result<Facts, AllocError>
    requires can_be_weighed { CanBeWeighed prepared.now }
    ensures known { IfOk result (AreFacts (inputs_in prepared.now).unit (inputs_in prepared.now).calls prepared.now.unit.settings.value) }
{
    let unit = &prepared.unit;
    facts(
        alloc,
        &unit.inputs.unit,
        &unit.inputs.calls,
        &unit.inputs.site,
        &unit.settings,
    )
}

/// Prepares `score`, the name of a unit and the path of a policy. It reads the unit, calls.txt, site.toml and the
/// policy, finds the first refusal of them and of the settings, and weighs the service. A policy that weighs nothing
/// is refused.
///
/// The threshold is in hundredths. The tests are the stored ones, which decide what the settings' table of tests does not.
pub fn prepare<S: Shelf>(
    alloc: Global,
    shelf: &mut S,
    unit: &str,
    policy: &str,
    threshold: u32,
    tests: &[CustomTest],
) -> Result<Scored, CommandError>
    ensures prepares { IsAdmitted (laws_over (S.agrees shelf.new) (score_laws unit.now policy.now threshold (⟦<CustomTest as Stored>⟧.stored tests.now))) status_of scored_text result }
    ensures asks_in_order { AsksInOrder S.asks (S.agrees shelf.new) (λ files. asks_with_file files unit.now policy.now) shelf.old shelf.new (course result) }
    ensures reads_for_the_unit { ReadsFor S.agrees S.faults unit.now shelf.old shelf.new result }
{
    let prepared = read_all(alloc, shelf, unit, policy)?;
    let known = facts_of(alloc, &prepared)?;
    let score = weigh(alloc, policy, &prepared.policy, &known, tests)?;
    Ok(Scored { score, threshold })
}
