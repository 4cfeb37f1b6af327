//! Reads SystemCallErrorNumber=, the action on calls that a filter refuses (systemd.exec(5)).
ghost use Rattle.std.specs.Prelude.{◌≡◌, IfOk};
ghost use Rattle.filter_settings.specs.ErrorActions.{error_action, default_action, error_action_value, unit_error_action, unit_error_action_notes};

use call_rules::{Action, errno_number};
use dropin_merge::Resolved;
use dropin_merge::unit_values::{KeyValue, Said, last_of_key};
use std::alloc::{AllocError, Global};

/// Returns the action that a text names: `kill`, or the name or the number of an error.
#[tactic(auto, unfolding(crate::specs::ErrorActions::error_action))]
pub fn error_action(text: &str) -> Option<Action>
    ensures named_action { result ≡ error_action text.now }
{
    if text == "kill" {
        return Some(Action::KillProcess);
    }
    Some(Action::Errno(errno_number(text)? as u16))
}

/// The value of the key.
#[derive(Clone, Copy)]
struct ErrorAction {
    action: Action,
}

// Returns the action if no value is in force: the process is ended.
fn default_action() -> ErrorAction
    ensures { result ≡ default_action }
{
    ErrorAction {
        action: Action::KillProcess,
    }
}

impl KeyValue for ErrorAction {
    ghost reads = { error_action_value };

    fn read(text: &str) -> Option<Self> {
        if text.is_empty() {
            return Some(default_action());
        }
        Some(ErrorAction {
            action: error_action(text)?,
        })
    }
}

/// Returns the action that the files of a unit give to a key such as SystemCallErrorNumber=, with its notes.
pub fn error_action_of_key(
    alloc: Global,
    unit: &Resolved,
    key: &str,
) -> Result<Said<Action>, AllocError>
    ensures means { IfOk result (λ said. said.what ≡ unit_error_action unit.now key.now) }
    ensures noted { IfOk result (λ said. said.notes.items ≡ unit_error_action_notes unit.now key.now) }
{
    let said = last_of_key(alloc, unit, key, default_action())?;
    Ok(Said {
        what: said.what.action,
        notes: said.notes,
    })
}
