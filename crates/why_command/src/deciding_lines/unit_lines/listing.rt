//! The assignments in force of a unit, listed.
ghost use Rattle.std.specs.Prelude.{◌≡◌, ◌++◌, [], IfOk, OnOk};
ghost use Rattle.std.specs.List.{cons_option};
ghost use Rattle.why_command.specs.deciding_lines.unit_lines.Lines.{line_at, lines_of};

use crate::deciding_lines::unit_lines::line::UnitLine;
use asked_service::{Assignment, Place, Resolved, Text, Version, is_read, service_assignments};
use std::alloc::{AllocError, Global};

// Lists an assignment of the service, if its key is read.
fn push_if_read(
    alloc: Global,
    lines: &mut Vec<UnitLine>,
    systemd: Option<Version>,
    place: Place,
    assignment: &Assignment,
) -> Result<(), AllocError>
    ensures { OnOk result (lines.new.items ≡ lines.old.items ++ cons_option (line_at systemd (place, assignment.now)) []) }
{
    if is_read(systemd, assignment.key.as_str()) {
        lines.push(UnitLine {
            place,
            key: Text::new(alloc, assignment.key.as_str())?,
            value: Text::new(alloc, assignment.value.as_str())?,
        })?;
    }
    Ok(())
}

/// Returns the assignments in force of a unit: the lines of `[Service]` whose key is read, in the order of files and lines.
#[tactic(auto, unfolding(crate::specs::deciding_lines::unit_lines::Lines::lines_of))]
pub fn lines(alloc: Global, unit: &Resolved) -> Result<Vec<UnitLine>, AllocError>
    ensures all_in_order { IfOk result (λ lines. lines.items ≡ lines_of unit.now) }
{
    let mut lines = Vec::new(alloc);
    for (place, assignment) in service_assignments(unit) {
        push_if_read(alloc, &mut lines, unit.systemd, place, assignment)?;
    }
    Ok(lines)
}
