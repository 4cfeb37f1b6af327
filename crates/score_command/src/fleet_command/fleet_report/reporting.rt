//! The report of all units.
ghost use Rattle.std.specs.Prelude.{◌≡◌, ◌↔◌, ◌<◌, IfOk, IsErrOf, IsPermutation, map};
ghost use Rattle.std.specs.List.{All};
ghost use Rattle.report_text.specs.exposure_score.policy_weights.Weights.{weight_of};
ghost use Rattle.unit_inputs.specs.host_io.Agreeing.{ForFiles};
ghost use Rattle.unit_inputs.specs.host_io.Calls.{AsksExactly};
ghost use Rattle.score_command.specs.fleet_command.fleet_report.Answers.{HasCause};
ghost use Rattle.score_command.specs.fleet_command.fleet_report.Asking.{course, rows_asks, unless_weightless};
ghost use Rattle.score_command.specs.fleet_command.fleet_report.Order.{AreInOrder};
ghost use Rattle.score_command.specs.fleet_command.fleet_report.Outcomes.{IsRowOf, TellsNoFault};

use crate::fleet_command::fleet_report::errors::FleetError;
use crate::fleet_command::fleet_report::ordering::put_in_order;
use crate::fleet_command::fleet_report::rows::FleetRow;
use crate::fleet_command::fleet_report::scoring::row_of;
use host_io::Shelf;
use report_text::{CustomTest, Policy, Stored, weighs};
use std::alloc::Global;
use unit_inputs::{CallTable, SiteTable, UnitName};

// The rows of the names, one by one. The policy weighs something.
fn rows_of<S: Shelf>(
    alloc: Global,
    shelf: &mut S,
    names: &[UnitName],
    calls: &CallTable,
    site: &SiteTable,
    policy: &Policy,
    tests: &[CustomTest],
) -> Result<Vec<FleetRow>, FleetError>
    requires weighs { 0 < weight_of calls.now (⟦<CustomTest as Stored>⟧.stored tests.now) policy.now }
    ensures a_row_a_name { IfOk result (λ rows. map (λ row. row.name) rows.items ≡ names.now) }
    ensures by_their_files { ForFiles (S.agrees shelf.new) (λ files. IfOk result (λ rows. All (IsRowOf files calls.now site.now policy.now (⟦<CustomTest as Stored>⟧.stored tests.now)) rows.items)) }
    ensures tells_no_fault { IfOk result (λ rows. All (λ row. TellsNoFault row.outcome) rows.items) }
    ensures asks_in_order { ForFiles (S.agrees shelf.new) (λ files. AsksExactly S.asks shelf.old shelf.new (rows_asks files names.now) (course result)) }
    ensures answers_stay { ForFiles (S.agrees shelf.new) (S.agrees shelf.old) }
    ensures fault_rose { HasCause (S.faults shelf.old) (S.faults shelf.new) result }
    ensures never_weightless { IsErrOf result FleetError.NoWeight → ⊥ }
{
    let mut rows = Vec::new(alloc);
    for name in names {
        rows.push(row_of(alloc, shelf, name, calls, site, policy, tests)?)?;
    }
    Ok(rows)
}

// The same in their order.
fn ordered_rows(mut rows: Vec<FleetRow>) -> Vec<FleetRow>
    ensures the_same { IsPermutation rows.items result.items }
    ensures in_order { AreInOrder result.items }
{
    put_in_order(&mut rows);
    rows
}

/// Returns the rows of the units of these names, by a policy and the given tests. Scored units are first, the greater exposure
/// before the lesser. Units of equal exposure, and units without a score, are in byte order of their names.
///
/// A unit is read as `dropin_merge` resolves it, and freed before the next. It is scored exactly if it is resolved and its
/// settings are accepted; otherwise its row has the refusal. A row does not depend on the files of other units.
///
/// Returns `NoWeight` exactly if the weights of the policy's tests that are not skipped sum to 0, whether or not there is a
/// unit; then nothing is read. Otherwise exactly the units are read, in the order of the names, whatever the outcome of each.
/// Returns `ReadFault` only if the shelf's count of faults rose; any other result leaves the count.
pub fn fleet<S: Shelf>(
    alloc: Global,
    shelf: &mut S,
    names: &[UnitName],
    calls: &CallTable,
    site: &SiteTable,
    policy: &Policy,
    tests: &[CustomTest],
) -> Result<Vec<FleetRow>, FleetError>
    ensures a_row_a_name { IfOk result (λ rows. IsPermutation names.now (map (λ row. row.name) rows.items)) }
    ensures by_their_files { ForFiles (S.agrees shelf.new) (λ files. IfOk result (λ rows. All (IsRowOf files calls.now site.now policy.now (⟦<CustomTest as Stored>⟧.stored tests.now)) rows.items)) }
    ensures tells_no_fault { IfOk result (λ rows. All (λ row. TellsNoFault row.outcome) rows.items) }
    ensures least_protected_first { IfOk result (λ rows. AreInOrder rows.items) }
    ensures no_weight { IsErrOf result FleetError.NoWeight ↔ (weight_of calls.now (⟦<CustomTest as Stored>⟧.stored tests.now) policy.now ≡ 0) }
    ensures asks_in_order { ForFiles (S.agrees shelf.new) (λ files. AsksExactly S.asks shelf.old shelf.new (unless_weightless (weight_of calls.now (⟦<CustomTest as Stored>⟧.stored tests.now) policy.now) (rows_asks files names.now)) (course result)) }
    ensures unread_without_weight { IsErrOf result FleetError.NoWeight → shelf.new ≡ shelf.old }
    ensures answers_stay { ForFiles (S.agrees shelf.new) (S.agrees shelf.old) }
    ensures fault_rose { HasCause (S.faults shelf.old) (S.faults shelf.new) result }
{
    if !weighs(calls, policy, tests) {
        return Err(FleetError::NoWeight);
    }
    let rows = rows_of(alloc, shelf, names, calls, site, policy, tests)?;
    Ok(ordered_rows(rows))
}
