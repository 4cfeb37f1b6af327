//! The lines of a report of all units.
ghost use Rattle.std.specs.Prelude.{◌≡◌, IfOk, count_by};
ghost use Rattle.score_command.specs.fleet_command.Texts.{counts_line, exposure_line, is_refused, row_line};

use crate::fleet_command::fleet_report::{FleetOutcome, FleetRow};
use std::alloc::{AllocError, Global};
use unit_inputs::{push_word, settings_line, unit_line};

// The line of a unit that is scored.
fn exposure_line(alloc: Global, unit: &str, exposure: u32) -> Result<Vec<u8>, AllocError>
    ensures { IfOk result (λ line. line.items ≡ exposure_line unit.now exposure) }
{
    let mut line = b"unit ".to_vec(alloc)?;
    push_word(&mut line, unit)?;
    let end = format!(in alloc; " exposure {exposure}\n")?;
    line.extend_from_slice(end.as_bytes())?;
    Ok(line)
}

/// Makes the line of a unit: its exposure in hundredths, or its refusal as a command for this unit prints it.
pub fn row_line(alloc: Global, row: &FleetRow) -> Result<Vec<u8>, AllocError>
    ensures tells_the_row { IfOk result (λ line. line.items ≡ row_line row.now) }
{
    let unit = row.name.text();
    match &row.outcome {
        FleetOutcome::Scored(exposure) => exposure_line(alloc, unit, *exposure),
        FleetOutcome::Unresolved(refusal) => unit_line(alloc, unit, refusal),
        FleetOutcome::Unset(refusal) => settings_line(alloc, unit, refusal),
    }
}

// Whether a unit is refused.
#[tactic(auto, unfolding(crate::specs::fleet_command::Texts::is_refused))]
fn is_refused(row: &FleetRow) -> bool
    ensures { result ≡ is_refused row.now }
{
    match &row.outcome {
        FleetOutcome::Scored(_) => false,
        FleetOutcome::Unresolved(_) | FleetOutcome::Unset(_) => true,
    }
}

/// How many units are refused.
pub fn count_refused(rows: &[FleetRow]) -> usize
    ensures counts_them { result ≡ count_by is_refused rows.now }
{
    let mut count = 0;
    for row in rows {
        if is_refused(row) {
            count += 1;
        }
    }
    count
}

/// The last line: how many units there are, and how many of them are refused.
pub fn counts_line(alloc: Global, units: usize, refused: usize) -> Result<Vec<u8>, AllocError>
    ensures tells_both { IfOk result (λ line. line.items ≡ counts_line units refused) }
{
    Ok(format!(in alloc; "units {units} refused {refused}\n")?.into_bytes())
}
