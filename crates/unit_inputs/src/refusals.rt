//! Writes the lines of units whose settings are refused.
ghost use Rattle.std.specs.Prelude.{◌≡◌, IfOk};
ghost use Rattle.unit_inputs.specs.SettingsRefusals.{cause_with, settings_cause, settings_line};

use crate::command_answers::refused_line;
use exec_settings::{SettingsError, push_word};
use std::alloc::{AllocError, Global};

// Writes a cause and its subject.
fn cause_with(alloc: Global, cause: &[u8], what: &str) -> Result<Vec<u8>, AllocError>
    ensures { IfOk result (λ line. line.items ≡ cause_with cause.now what.now) }
{
    let mut line = cause.to_vec(alloc)?;
    line.push(b' ')?;
    push_word(&mut line, what)?;
    Ok(line)
}

// Writes why a unit has no settings.
fn settings_cause(alloc: Global, error: &SettingsError) -> Result<Vec<u8>, AllocError>
    ensures { IfOk result (λ cause. cause.items ≡ settings_cause error.now) }
{
    match error {
        SettingsError::NoCommand => b"no-command".to_vec(alloc),
        SettingsError::PrivilegedCommand => b"privileged-command".to_vec(alloc),
        SettingsError::OutsideProfile(key) => cause_with(alloc, b"outside", key.as_str()),
        SettingsError::NoSuchUser(word) => cause_with(alloc, b"no-user", word.as_str()),
        SettingsError::NoSuchGroup(word) => cause_with(alloc, b"no-group", word.as_str()),
        SettingsError::MissingGroup(name) => cause_with(alloc, b"no-set", name.as_str()),
        SettingsError::TooManyPaths => b"too-many-paths".to_vec(alloc),
        SettingsError::Memory => Ok(Vec::new(alloc)),
    }
}

/// Returns the line of a unit whose settings are refused. `Memory` has no cause to print.
pub fn settings_line(
    alloc: Global,
    unit: &str,
    error: &SettingsError,
) -> Result<Vec<u8>, AllocError>
    ensures tells_the_refusal { IfOk result (λ line. line.items ≡ settings_line unit.now error.now) }
{
    let cause = settings_cause(alloc, error)?;
    refused_line(alloc, unit, cause.as_slice())
}
