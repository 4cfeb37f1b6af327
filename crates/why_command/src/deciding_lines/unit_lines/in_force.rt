//! Whether an assignment is in force.
ghost use Rattle.std.specs.Prelude.{◌≡◌, ◌&&◌, IfSome};
ghost use Rattle.std.specs.Str.{bytes_eq};
ghost use Rattle.why_command.specs.deciding_lines.unit_lines.Lines.{is_in_force};
ghost use Rattle.why_command.specs.deciding_lines.unit_lines.Seen.{IsSeen, has_same_key};

use asked_service::{Assignment, Version, is_read};

/// The section of a unit file that describes the service.
const SECTION: &str = "Service";

/// An assignment, and whether it is in force.
#[derive(Clone, Copy)]
pub struct Seen<'a> {
    /// The assignment.
    pub assignment: &'a Assignment,
    /// Whether it is in force.
    pub is_in_force: bool,
}

fn is_in_force(systemd: Option<Version>, assignment: &Assignment) -> bool
    ensures { result ≡ is_in_force systemd assignment.now }
{
    assignment.section.as_str() == SECTION && is_read(systemd, assignment.key.as_str())
}

fn has_same_key(one: &Assignment, other: &Assignment) -> bool
    ensures { result ≡ has_same_key one.now other.now }
{
    one.section.as_str() == other.section.as_str() && one.key.as_str() == other.key.as_str()
}

/// Returns whether an assignment is in force. Lines of one key often follow each other, so the last answer is often its answer.
pub fn is_in_force_after(
    systemd: Option<Version>,
    seen: Option<Seen<'_>>,
    assignment: &Assignment,
) -> bool
    requires before { IfSome seen (IsSeen systemd) }
    ensures by_its_key { result ≡ is_in_force systemd assignment.now }
{
    match seen {
        Some(last) => {
            if has_same_key(last.assignment, assignment) {
                return last.is_in_force;
            }
            return is_in_force(systemd, assignment);
        }
        None => return is_in_force(systemd, assignment),
    }
}
