//! The outcome of a unit, by its own files.
ghost use Rattle.std.specs.Prelude.{◌≡◌, ◌<◌, IfErr, IfOk, IsErrOf, None, Ok};
ghost use Rattle.unit_inputs.specs.exec_settings.AreSettings.{AreSettings};
ghost use Rattle.unit_inputs.specs.exec_settings.Refusals.{refusal_of};
ghost use Rattle.report_text.specs.exposure_score.policy_weights.Weights.{weight_of};
ghost use Rattle.report_text.specs.dropin_merge.Resolving.{resolved_of};
ghost use Rattle.unit_inputs.specs.unit_names.Names.{text_of};
ghost use Rattle.unit_inputs.specs.host_io.Agreeing.{ForFiles};
ghost use Rattle.unit_inputs.specs.host_io.Calls.{AsksExactly};
ghost use Rattle.score_command.specs.fleet_command.fleet_report.Answers.{HasCause};
ghost use Rattle.score_command.specs.fleet_command.fleet_report.Asking.{course, row_asks};
ghost use Rattle.score_command.specs.fleet_command.fleet_report.Outcomes.{HasExposure, IsOutcome, IsOutcomeOf, IsRowOf, TellsNoFault};
ghost use Rattle.score_command.specs.declared.fleet_command.fleet_report.errors.FleetError.TheVariants.{Memory};

use crate::fleet_command::fleet_report::errors::FleetError;
use crate::fleet_command::fleet_report::rows::{FleetOutcome, FleetRow};
use host_io::Shelf;
use report_text::{
    CustomTest, Policy, ResolveError, Resolved, ScoreError, Stored, facts, resolve, score,
};
use std::alloc::Global;
use unit_inputs::{CallTable, Settings, SettingsError, SiteTable, UnitName, settings};

// The exposure of a unit by its settings, which are accepted, and a policy that weighs something.
fn exposure_of(
    alloc: Global,
    unit: &Resolved,
    calls: &CallTable,
    site: &SiteTable,
    policy: &Policy,
    tests: &[CustomTest],
    made: &Settings,
) -> Result<u32, FleetError>
    requires accepted { refusal_of unit.now calls.now site.now ≡ None }
    requires are_settings { AreSettings unit.now calls.now site.now made.now }
    requires weighs { 0 < weight_of calls.now (⟦<CustomTest as Stored>⟧.stored tests.now) policy.now }
    ensures exposes { IfOk result (HasExposure calls.now site.now policy.now (⟦<CustomTest as Stored>⟧.stored tests.now) unit.now) }
    ensures only_memory_fails { IfErr result (λ error. error ≡ Memory) }
{
    let known = facts(alloc, unit, calls, site, made)?;
    match score(alloc, policy, &known, tests) {
        Ok(score) => Ok(score.exposure),
        Err(ScoreError::NoWeight) => unreachable!(),
        Err(ScoreError::Memory) => Err(FleetError::Memory),
    }
}

// The outcome of a unit that is resolved.
fn outcome_of(
    alloc: Global,
    unit: &Resolved,
    calls: &CallTable,
    site: &SiteTable,
    policy: &Policy,
    tests: &[CustomTest],
) -> Result<FleetOutcome, FleetError>
    requires weighs { 0 < weight_of calls.now (⟦<CustomTest as Stored>⟧.stored tests.now) policy.now }
    ensures comes_of_it { IfOk result (IsOutcomeOf calls.now site.now policy.now (⟦<CustomTest as Stored>⟧.stored tests.now) unit.now) }
    ensures tells_no_fault { IfOk result TellsNoFault }
    ensures only_memory_fails { IfErr result (λ error. error ≡ Memory) }
{
    match settings(alloc, unit, calls, site) {
        Ok(made) => {
            let exposure = exposure_of(alloc, unit, calls, site, policy, tests, &made)?;
            Ok(FleetOutcome::Scored(exposure))
        }
        Err(SettingsError::Memory) => Err(FleetError::Memory),
        Err(refusal) => Ok(FleetOutcome::Unset(refusal)),
    }
}

// The outcome of the unit with this name.
fn outcome_by_files<S: Shelf>(
    alloc: Global,
    shelf: &mut S,
    name: &UnitName,
    calls: &CallTable,
    site: &SiteTable,
    policy: &Policy,
    tests: &[CustomTest],
) -> Result<FleetOutcome, FleetError>
    requires weighs { 0 < weight_of calls.now (⟦<CustomTest as Stored>⟧.stored tests.now) policy.now }
    ensures comes_of_its_files { ForFiles (S.agrees shelf.new) (λ files. IfOk result (IsOutcome calls.now site.now policy.now (⟦<CustomTest as Stored>⟧.stored tests.now) (resolved_of files (text_of name.now)))) }
    ensures tells_no_fault { IfOk result TellsNoFault }
    ensures asks_in_order { ForFiles (S.agrees shelf.new) (λ files. AsksExactly S.asks shelf.old shelf.new (row_asks files name.now) (course result)) }
    ensures answers_stay { ForFiles (S.agrees shelf.new) (S.agrees shelf.old) }
    ensures fault_rose { HasCause (S.faults shelf.old) (S.faults shelf.new) result }
    ensures never_weightless { IsErrOf result FleetError.NoWeight → ⊥ }
{
    match resolve(alloc, shelf, name.text()) {
        Ok(mut unit) => {
            unit.read_by(site.systemd());
            outcome_of(alloc, &unit, calls, site, policy, tests)
        }
        Err(ResolveError::ReadFault) => Err(FleetError::ReadFault),
        Err(ResolveError::Memory) => Err(FleetError::Memory),
        Err(refusal) => Ok(FleetOutcome::Unresolved(refusal)),
    }
}

/// The row of a name, by the files of its unit, which is let go. The policy weighs something.
pub fn row_of<S: Shelf>(
    alloc: Global,
    shelf: &mut S,
    name: &UnitName,
    calls: &CallTable,
    site: &SiteTable,
    policy: &Policy,
    tests: &[CustomTest],
) -> Result<FleetRow, FleetError>
    requires weighs { 0 < weight_of calls.now (⟦<CustomTest as Stored>⟧.stored tests.now) policy.now }
    ensures same_name { IfOk result (λ row. row.name ≡ name.now) }
    ensures is_the_row { ForFiles (S.agrees shelf.new) (λ files. IfOk result (IsRowOf files calls.now site.now policy.now (⟦<CustomTest as Stored>⟧.stored tests.now))) }
    ensures tells_no_fault { IfOk result (λ row. TellsNoFault row.outcome) }
    ensures asks_in_order { ForFiles (S.agrees shelf.new) (λ files. AsksExactly S.asks shelf.old shelf.new (row_asks files name.now) (course result)) }
    ensures answers_stay { ForFiles (S.agrees shelf.new) (S.agrees shelf.old) }
    ensures fault_rose { HasCause (S.faults shelf.old) (S.faults shelf.new) result }
    ensures never_weightless { IsErrOf result FleetError.NoWeight → ⊥ }
{
    let outcome = outcome_by_files(alloc, shelf, name, calls, site, policy, tests)?;
    let name = name.copy(alloc)?;
    Ok(FleetRow { name, outcome })
}
