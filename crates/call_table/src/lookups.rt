// Finds calls by number and by name. A list has at most 512 calls, so a search by number goes through it. A name may
// belong to either of two ABIs.
ghost use Rattle.std.specs.Prelude.{◌≡◌, ◌<◌, ◌+◌, ◌^◌, ◌++◌, length, option_copied};
ghost use Rattle.std.specs.List.{list_any};
ghost use Rattle.call_table.specs.Lookups.{has_number, named, numbered, place_named};
ghost use Rattle.call_table.specs.Views.{lines_seen};

use crate::listed::{CallLine, CallLines};

/// Returns whether a line has this number.
pub fn has_number(lines: &[CallLine], number: u32) -> bool
    ensures some_line { result ≡ list_any (has_number number) lines.now }
{
    lines.iter().any(|line| line.number == number)
}

/// Returns the first line of this number.
pub fn numbered(lines: &[CallLine], number: u32) -> Option<&CallLine>
    ensures by_number { option_copied result ≡ numbered number lines.now }
{
    lines.iter().find(|line| line.number == number)
}

/// Returns the calls of an ABI, or no calls if the table lacks the ABI.
pub fn lines_of(calls: Option<&CallLines>) -> &[CallLine]
    ensures lines_or_none { result.now ≡ lines_seen calls.entry }
{
    match calls {
        Some(calls) => calls.lines(),
        None => &[],
    }
}

/// Returns the call of this name in an ABI.
pub fn named<'l>(calls: Option<&'l CallLines>, name: &str) -> Option<&'l CallLine>
    ensures by_name { option_copied result ≡ named name.now (lines_seen calls.entry) }
{
    calls?.get(name)
}

// Returns the position of the call of this name in an ABI, from 0.
fn place_in(calls: Option<&CallLines>, name: &str) -> Option<usize>
    ensures { result ≡ place_named name.now (lines_seen calls.entry) }
{
    calls?.place(name)
}

/// Returns the position of the first call of this name, from 0, among these calls followed by the calls of another ABI.
pub fn place_among(calls: &CallLines, more: Option<&CallLines>, name: &str) -> Option<usize>
    requires { length calls.now + length (lines_seen more) < 2 ^ 63 }
    ensures by_name { result ≡ place_named name.now (calls.now ++ lines_seen more.entry) }
{
    match calls.place(name) {
        Some(place) => Some(place),
        None => Some(calls.lines().len() + place_in(more, name)?),
    }
}
