//! Whether a drop-in can list the names of a table, all of them in one value.

ghost use Rattle.std.specs.Prelude.{◌≡◌, ◌+◌, IfSome, IsTrue, length, true};
ghost use Rattle.std.specs.List.{list_all};
ghost use Rattle.asked_service.specs.call_table.Names.{is_name, is_name_byte};
ghost use Rattle.derive_command.specs.trace_profile.PlainNames.{HasPlainNames};

use crate::trace_profile::extending::name_at;
use crate::trace_profile::names::count_lines;
use asked_service::CallTable;

// The bytes that one value has room for after `@default`.
const ROOM: usize = 1_048_568;

fn is_plain_byte(byte: u8) -> bool
    ensures { result ≡ is_name_byte byte }
{
    byte.is_ascii_alphanumeric() || (byte == b'_' || byte == b'-')
}

fn has_plain_bytes(name: &str) -> bool
    ensures { result ≡ list_all is_name_byte name.now }
{
    name.as_bytes().iter().all(|byte| is_plain_byte(*byte))
}

fn is_plain(name: &str) -> bool
    ensures { result ≡ is_name name.now }
{
    !name.is_empty() && has_plain_bytes(name)
}

// The room that is left after a plain name and the space before it.
fn take_name(room: usize, name: &str) -> Option<usize>
    ensures { IfSome result (λ left. (is_name name.now ≡ true) × (left + (length name.now + 1) ≡ room)) }
{
    if is_plain(name) {
        room.checked_sub(name.len() + 1)
    } else {
        None
    }
}

/// Returns true only if the names of all lines are plain and one value of a unit file has room for them.
pub fn has_plain_names(calls: &CallTable) -> bool
    ensures only_a_plain_table { IsTrue result → HasPlainNames calls.now }
{
    let mut room = ROOM;
    for place in 0..count_lines(calls) {
        match take_name(room, name_at(calls, place)) {
            Some(left) => room = left,
            None => return false,
        }
    }
    true
}
