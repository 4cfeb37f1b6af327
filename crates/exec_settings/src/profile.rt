//! Finds keys that ask for something outside of the model (systemd.exec(5), Paths, Capabilities, Sandboxing).
ghost use Rattle.std.specs.Prelude.{◌≡◌, Some, false, find, map, unwrap_or, IfOk};
ghost use Rattle.std.specs.List.{filter_map};
ghost use Rattle.std.specs.Option.{option_map};
ghost use Rattle.cred_settings.specs.unit_grammar.Before.{last_of};
ghost use Rattle.mount_settings.specs.Written.{unit_written};
ghost use Rattle.exec_settings.specs.Profile.{asks, is_asked, is_outside_by, is_outside, outside_key};

use crate::keys::{Meaning, keys};
use cred_settings::{Resolved, Value, read_bool, written_values};
use mount_settings::{WrittenPaths, mentions_root};
use std::alloc::{AllocError, Global};

// Returns whether a text asks for the effect of its key. An empty text and a false boolean do not.
fn asks(text: &str) -> bool
    ensures { result ≡ asks text.now }
{
    !text.is_empty() && read_bool(text) != Some(false)
}

// Returns whether the last of these values asks for the effect of their key.
fn last_asks(values: &[Value]) -> bool
    ensures { result ≡ unwrap_or (last_of (filter_map (λ value. Some (asks value.text)) values.now)) false }
{
    let mut asked = false;
    for value in values {
        asked = asks(value.text.as_str());
    }
    asked
}

// Returns whether the last assignment of the key asks for its effect.
fn is_asked(alloc: Global, unit: &Resolved, key: &str) -> Result<bool, AllocError>
    ensures { IfOk result (λ asked. asked ≡ is_asked unit.now key.now) }
{
    let values = written_values(alloc, unit, key)?;
    Ok(last_asks(values.as_slice()))
}

// Returns whether the unit with these written paths uses a key with this meaning in a way that is outside of the model.
fn is_outside(
    alloc: Global,
    unit: &Resolved,
    paths: &WrittenPaths,
    is_relative: bool,
    key: &str,
    meaning: Meaning,
) -> Result<bool, AllocError>
    requires of_the_unit { paths.now ≡ unit_written unit.now }
    ensures { IfOk result (λ outside. outside ≡ is_outside_by unit.now is_relative key.now meaning) }
{
    match meaning {
        Meaning::Place(key) => Ok(mentions_root(paths, key)),
        Meaning::Command => Ok(is_relative),
        Meaning::Refused => is_asked(alloc, unit, key),
        Meaning::Credentials | Meaning::Filter | Meaning::Protection | Meaning::Path => Ok(false),
    }
}

fn first_outside(
    alloc: Global,
    unit: &Resolved,
    paths: &WrittenPaths,
    is_relative: bool,
    rows: &'static [(&'static str, Meaning)],
) -> Result<Option<&'static str>, AllocError>
    requires of_the_unit { paths.now ≡ unit_written unit.now }
    ensures { IfOk result (λ found. option_map (λ name. name.now) found ≡ option_map (λ row. row.0) (find (is_outside unit.now is_relative) (map (λ row. (row.0.now, row.1)) rows.now))) }
{
    for row in rows {
        if is_outside(alloc, unit, paths, is_relative, row.0, row.1)? {
            return Ok(Some(row.0));
        }
    }
    Ok(None)
}

/// Returns the first key in byte order by which a unit with these written paths asks for something outside of the model.
/// `is_relative` says if its program is relative.
#[tactic(auto, unfolding(crate::specs::Profile::outside_key))]
pub fn outside_key(
    alloc: Global,
    unit: &Resolved,
    paths: &WrittenPaths,
    is_relative: bool,
) -> Result<Option<&'static str>, AllocError>
    requires of_the_unit { paths.now ≡ unit_written unit.now }
    ensures first_in_byte_order { IfOk result (λ found. option_map (λ name. name.now) found ≡ outside_key unit.now is_relative) }
{
    first_outside(alloc, unit, paths, is_relative, keys(unit.systemd))
}
