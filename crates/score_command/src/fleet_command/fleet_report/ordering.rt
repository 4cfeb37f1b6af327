//! Rows in their order.
ghost use Rattle.std.specs.Prelude.{◌≡◌, IsPermutation};
ghost use Rattle.score_command.specs.fleet_command.fleet_report.Order.{AreInOrder};
ghost use Rattle.score_command.specs.fleet_command.fleet_report.Comparing.{outcome_cmp, row_cmp};

use crate::fleet_command::fleet_report::rows::{FleetOutcome, FleetRow};
use std::cmp::Ordering;

// The greater exposure is first, and units without a score follow the scored ones.
fn compare_outcomes(one: &FleetOutcome, other: &FleetOutcome) -> Ordering
    ensures { result ≡ outcome_cmp one.now other.now }
{
    match (one, other) {
        (FleetOutcome::Scored(one), FleetOutcome::Scored(other)) => other.cmp(one),
        (FleetOutcome::Scored(_), _) => Ordering::Less,
        (_, FleetOutcome::Scored(_)) => Ordering::Greater,
        _ => Ordering::Equal,
    }
}

// Rows whose outcomes are equal come in byte order of names.
fn compare_rows(one: &FleetRow, other: &FleetRow) -> Ordering
    ensures { result ≡ row_cmp one.now other.now }
{
    let by_name = one.name.text().cmp(other.name.text());
    compare_outcomes(&one.outcome, &other.outcome).then(by_name)
}

/// Puts rows in their order: those that are scored first, the greater exposure first, and equal ones and the others by name.
pub fn put_in_order(rows: &mut [FleetRow])
    ensures the_same { IsPermutation rows.old rows.new }
    ensures in_order { AreInOrder rows.new }
{
    rows.sort_unstable_by(|one, other| compare_rows(one, other));
}
