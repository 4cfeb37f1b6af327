//! A unit, extended by the drop-in that allows some calls.

ghost use Rattle.std.specs.Prelude.{◌≡◌, ◌∷◌, ◌++◌, IfOk, OnOk, flat_map};
ghost use Rattle.derive_command.specs.trace_profile.Extended.{drop_in_text, extended, name_at};

use asked_service::launching::with_file;
use asked_service::{CallTable, Resolved};
use std::alloc::{AllocError, Global};

/// The name of the call line at a place.
pub fn name_at(calls: &CallTable, place: u32) -> &str
    ensures of_its_line { result.now ≡ name_at calls.now place }
{
    match calls.call_at(place as usize) {
        Some(line) => line.name.as_str(),
        None => "",
    }
}

// Appends the names of these places, with a space before each.
fn push_names(text: &mut Vec<u8>, calls: &CallTable, names: &[u32]) -> Result<(), AllocError>
    ensures { OnOk result (text.new.items ≡ text.old.items ++ flat_map (λ place. 32 ∷ name_at calls.now place) names.now) }
{
    for place in names {
        text.push(b' ')?;
        text.extend_from_slice(name_at(calls, *place).as_bytes())?;
    }
    Ok(())
}

/// Makes the drop-in that allows exactly the calls at these places and the calls of `@default`, systemd.exec(5).
pub fn drop_in(alloc: Global, calls: &CallTable, names: &[u32]) -> Result<Vec<u8>, AllocError>
    ensures allows_exactly_these { IfOk result (λ text. text.items ≡ drop_in_text calls.now names.now) }
{
    let mut text = b"[Service]\nSystemCallFilter=\nSystemCallFilter=@default".to_vec(alloc)?;
    push_names(&mut text, calls, names)?;
    text.push(b'\n')?;
    Ok(text)
}

/// Makes the unit with that drop-in after its files.
pub fn extended(
    alloc: Global,
    unit: &Resolved,
    calls: &CallTable,
    names: &[u32],
) -> Result<Resolved, AllocError>
    ensures drop_in_stands_last { IfOk result (λ longer. longer ≡ extended unit.now calls.now names.now) }
{
    let text = drop_in(alloc, calls, names)?;
    with_file(alloc, unit, text.as_slice())
}
