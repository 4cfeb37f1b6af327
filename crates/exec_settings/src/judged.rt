//! Notes keys of the service that are not judged.
ghost use Rattle.std.specs.Prelude.{◌≡◌, ◌++◌, [], OnOk};
ghost use Rattle.std.specs.List.{cons_option, list_any};
ghost use Rattle.std.specs.Str.{bytes_eq};
ghost use Rattle.exec_settings.specs.Keys.{is_judged, is_read, noted_keys};
ghost use Rattle.exec_settings.specs.Judged.{unjudged_at, unjudged_notes};

use crate::keys::{Meaning, keys, noted_keys};
use cred_settings::{Assignment, FileNote, NoteCause, Place, Resolved, service_assignments};
use mount_settings::Version;
use std::alloc::AllocError;

fn is_named(rows: &[(&str, Meaning)], key: &str) -> bool
    ensures { result ≡ list_any (λ row. bytes_eq row.0.now key.now) rows.now }
{
    rows.iter().any(|row| row.0 == key)
}

// A key of fewer bytes is only compared with the judged keys that are as short.
const LONG_KEY: usize = 9;

// Returns whether a key is a setting for this systemd, or refuses the unit.
fn is_judged(systemd: Option<Version>, key: &str) -> bool
    ensures by_the_keys { result ≡ is_judged systemd key.now }
{
    if key.len() < LONG_KEY {
        return is_among(&["Group", "User"], key);
    }
    is_named(keys(systemd), key)
}

fn is_among(names: &[&str], key: &str) -> bool
    ensures { result ≡ list_any (λ name. bytes_eq name.now key.now) names.now }
{
    names.iter().any(|name| *name == key)
}

// Returns whether a key of a known systemd is noted, and still read for whether it is set.
fn counts(key: &str) -> bool
    ensures { result ≡ list_any (λ name. bytes_eq name key.now) noted_keys }
{
    is_among(noted_keys(), key)
}

/// Returns whether assignments to a key matter to a service for this systemd. They do if the key is a setting or refuses
/// the unit, or if the key is noted and still read for whether it is set.
pub fn is_read(systemd: Option<Version>, key: &str) -> bool
    ensures by_the_keys { result ≡ is_read systemd key.now }
{
    is_judged(systemd, key) || (systemd.is_some() && counts(key))
}

// Notes an assignment to a key that is not judged.
fn note_if_unjudged(
    systemd: Option<Version>,
    place: Place,
    assignment: &Assignment,
    notes: &mut Vec<FileNote>,
) -> Result<(), AllocError>
    ensures { OnOk result (notes.new.items ≡ notes.old.items ++ cons_option (unjudged_at systemd (place, assignment.now)) []) }
{
    if !is_judged(systemd, assignment.key.as_str()) {
        notes.push(FileNote {
            place,
            cause: NoteCause::Unjudged,
        })?;
    }
    Ok(())
}

/// Notes the assignments to keys that are not judged, after the other notes.
#[tactic(auto, unfolding(crate::specs::Judged::unjudged_notes))]
pub fn note_unjudged(unit: &Resolved, notes: &mut Vec<FileNote>) -> Result<(), AllocError>
    ensures notes_each { OnOk result (notes.new.items ≡ notes.old.items ++ unjudged_notes unit.now) }
{
    for (place, assignment) in service_assignments(unit) {
        note_if_unjudged(unit.systemd, place, assignment, notes)?;
    }
    Ok(())
}
