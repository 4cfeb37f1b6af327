//! Finds the command that a unit launches (systemd.service(5), ExecStart=).
ghost use Rattle.std.specs.Prelude.{◌≡◌, ◌++◌, ◌∷◌, ◌||◌, ◌&&◌, [], cond, slice_get, IfOk, OnOk};
ghost use Rattle.std.specs.List.{cons_option, filter_map};
ghost use Rattle.cred_settings.specs.unit_grammar.declared.notes.NoteCause.TheVariants.{Unjudged};
ghost use Rattle.cred_settings.specs.dropin_merge.unit_values.Notes.{notes_at, noted};
ghost use Rattle.exec_settings.specs.Commands.{command_of};
ghost use Rattle.exec_settings.specs.Launched.{base_reading, reading_of, command_in, is_command, later_causes, unread_note, unexpanded_by, command_values, unit_command, unit_command_notes};

use crate::commands::{Command, Reading, read_command};
use crate::known_commands::read_known;
use cred_settings::{
    FileNote, NoteCause, Resolved, Value, in_force, note_value, values_of_key, written_values,
};
use std::alloc::{AllocError, Global};

// Reads a value of ExecStart= by the rules of the base profile.
fn read_base(alloc: Global, text: &str) -> Result<Reading, AllocError>
    ensures { IfOk result (λ reading. reading ≡ base_reading (command_of text.now)) }
{
    Ok(match read_command(alloc, text)? {
        Some(command) => Reading::Launches(command),
        None => Reading::Noted(NoteCause::Value),
    })
}

// Reads a value of ExecStart=.
#[tactic(auto, unfolding(crate::specs::Launched::reading_of))]
fn read_value(alloc: Global, unit: &Resolved, value: &Value) -> Result<Reading, AllocError>
    ensures { IfOk result (λ reading. reading ≡ reading_of unit.now value.now) }
{
    match unit.systemd {
        None => read_base(alloc, value.text.as_str()),
        Some(_) => read_known(alloc, unit.systemd, &unit.name, value.text.as_str()),
    }
}

// Returns the command of a value, if it is one.
fn command_at(alloc: Global, unit: &Resolved, value: &Value) -> Result<Option<Command>, AllocError>
    ensures { IfOk result (λ command. command ≡ command_in (reading_of unit.now value.now)) }
{
    match read_value(alloc, unit, value)? {
        Reading::Launches(command) => Ok(Some(command)),
        Reading::Noted(_) => Ok(None),
    }
}

// Returns whether a value is a command.
fn is_command(alloc: Global, unit: &Resolved, value: &Value) -> Result<bool, AllocError>
    ensures { IfOk result (λ is. is ≡ is_command unit.now value.now) }
{
    Ok(command_at(alloc, unit, value)?.is_some())
}

// Notes a value that is neither empty nor a command.
fn note_if_unread(
    alloc: Global,
    unit: &Resolved,
    value: &Value,
    notes: &mut Vec<FileNote>,
) -> Result<(), AllocError>
    ensures { OnOk result (notes.new.items ≡ notes.old.items ++ cons_option (unread_note unit.now value.now) []) }
{
    if value.text.as_str().is_empty() {
        return Ok(());
    }
    if let Reading::Noted(cause) = read_value(alloc, unit, value)? {
        note_value(notes, value, cause)?;
    }
    Ok(())
}

// Notes each of these values that is neither empty nor a command.
fn note_unread(
    alloc: Global,
    unit: &Resolved,
    values: &[Value],
    notes: &mut Vec<FileNote>,
) -> Result<(), AllocError>
    ensures { OnOk result (notes.new.items ≡ notes.old.items ++ filter_map (unread_note unit.now) values.now) }
{
    for value in values {
        note_if_unread(alloc, unit, value, notes)?;
    }
    Ok(())
}

// Notes a value that is a command, if there was a command before. Returns whether there is one now.
fn note_if_later(
    alloc: Global,
    unit: &Resolved,
    seen: bool,
    value: &Value,
    notes: &mut Vec<FileNote>,
) -> Result<bool, AllocError>
    ensures seen { IfOk result (λ next. next ≡ (seen || is_command unit.now value.now)) }
    ensures noted { OnOk result (notes.new.items ≡ notes.old.items ++ notes_at value.now (cond (seen && is_command unit.now value.now) (Unjudged ∷ []) [])) }
{
    if !is_command(alloc, unit, value)? {
        return Ok(seen);
    }
    if seen {
        note_value(notes, value, NoteCause::Unjudged)?;
    }
    Ok(true)
}

// Notes the commands among these values after the first.
fn note_later(
    alloc: Global,
    unit: &Resolved,
    values: &[Value],
    notes: &mut Vec<FileNote>,
) -> Result<(), AllocError>
    ensures { OnOk result (notes.new.items ≡ notes.old.items ++ noted (later_causes unit.now) values.now) }
{
    let mut seen = false;
    for value in values {
        seen = note_if_later(alloc, unit, seen, value, notes)?;
    }
    Ok(())
}

// Returns the first command among these values.
fn first_command(
    alloc: Global,
    unit: &Resolved,
    values: &[Value],
) -> Result<Option<Command>, AllocError>
    ensures { IfOk result (λ command. command ≡ slice_get (filter_map (λ value. command_in (reading_of unit.now value)) values.now) 0) }
{
    for value in values {
        let command = command_at(alloc, unit, value)?;
        if command.is_some() {
            return Ok(command);
        }
    }
    Ok(None)
}

// Returns the values of ExecStart=. Without a version they are expanded, and values that cannot be expanded are noted.
fn values(
    alloc: Global,
    unit: &Resolved,
    notes: &mut Vec<FileNote>,
) -> Result<Vec<Value>, AllocError>
    ensures values { IfOk result (λ values. values.items ≡ command_values unit.now) }
    ensures noted { OnOk result (notes.new.items ≡ notes.old.items ++ unexpanded_by unit.now.systemd unit.now) }
{
    match unit.systemd {
        None => values_of_key(alloc, unit, "ExecStart")?.noted_in(notes),
        Some(_) => written_values(alloc, unit, "ExecStart"),
    }
}

/// Returns the command that a unit launches: the first command of ExecStart= that is in force. It adds notes after the
/// others: on values that cannot be expanded, then on values that cannot be read, and then on later commands in force.
#[tactic(auto, unfolding(crate::specs::Launched::unit_command, crate::specs::Launched::unit_command_notes))]
pub fn launched_command(
    alloc: Global,
    unit: &Resolved,
    notes: &mut Vec<FileNote>,
) -> Result<Option<Command>, AllocError>
    ensures first_in_force { IfOk result (λ command. command ≡ unit_command unit.now) }
    ensures notes_the_others { OnOk result (notes.new.items ≡ notes.old.items ++ unit_command_notes unit.now) }
{
    let values = values(alloc, unit, notes)?;
    note_unread(alloc, unit, values.as_slice(), notes)?;
    let commands = in_force(values.as_slice());
    note_later(alloc, unit, commands, notes)?;
    first_command(alloc, unit, commands)
}
