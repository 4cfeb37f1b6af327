//! Reads and writes words that name calls of either ABI.
//!
//! A word names a call of the native ABI by its name or its number, and a call of another ABI by `ABI:NAME` or
//! `ABI:#NUMBER`. With a table of x86-64 and i386, `i386:read` is the `read` of the second ABI.

ghost use Rattle.std.specs.Prelude.{◌≡◌, ◌++◌, OnOk, option_map, slice_get};
ghost use Rattle.call_table.specs.Table.{every_call};
ghost use Rattle.call_table.specs.call_words.Words.{last_cut, has_abi_name, named_abi, abi_word, place_of_abi, spelled, IsReadBack};

use crate::CallTable;
use std::alloc::AllocError;

fn last_cut(word: &str) -> Option<(&str, &str)>
    ensures { option_map (λ cut. (cut.0.now, cut.1.now)) result ≡ last_cut 58 word.now }
{
    word.rsplit_once(':')
}

fn has_abi_name(table: &CallTable, abi: u8, name: &str) -> bool
    ensures { result ≡ has_abi_name table.now abi name.now }
{
    match table.abi_name(abi) {
        Some(own) => name == own,
        None => false,
    }
}

fn place_of_abi(table: &CallTable, name: &str) -> Option<u8>
    ensures { result ≡ place_of_abi table.now name.now }
{
    if has_abi_name(table, 0, name) {
        Some(0)
    } else if has_abi_name(table, 1, name) {
        Some(1)
    } else {
        None
    }
}

/// Returns the ABI of a word and the name or number in it: the text after the last colon, or the whole word.
pub fn spelled<'a>(table: &CallTable, word: &'a str) -> Option<(u8, &'a str)>
    ensures by_the_table { option_map (λ call. (call.0, call.1.now)) result ≡ spelled table.now word.now }
{
    match last_cut(word) {
        Some((name, call)) => Some((place_of_abi(table, name)?, call)),
        None => Some((0, word)),
    }
}

/// Returns the name of the call at a position among all calls, from 0. The calls of the native ABI come first.
pub fn name_at(table: &CallTable, place: usize) -> Option<&str>
    ensures by_position { option_map (λ name. name.now) result ≡ option_map (λ call. call.name) (slice_get (every_call table.now) place) }
{
    Some(table.call_at(place)?.name.as_str())
}

fn push_second(out: &mut Vec<u8>, table: &CallTable) -> Result<(), AllocError>
    ensures { OnOk result (out.new.items ≡ out.old.items ++ named_abi table.now.second) }
{
    match table.abi_name(1) {
        Some(name) => {
            out.extend_from_slice(name.as_bytes())?;
            out.extend_from_slice(b":")
        }
        None => Ok(()),
    }
}

/// Appends the text before the name or the number of a call: nothing for the native ABI, and its name and a colon for
/// another ABI.
pub fn push_abi(out: &mut Vec<u8>, table: &CallTable, abi: u8) -> Result<(), AllocError>
    ensures writes_the_abi { OnOk result (out.new.items ≡ out.old.items ++ abi_word table.now abi) }
{
    if abi == 0 {
        return Ok(());
    }
    push_second(out, table)
}

/// States that a call that is spelled for an ABI of the table is read back.
pub fn is_read_back(table: &CallTable)
    ensures is_read_back { IsReadBack table.now }
{
    let _ = table.abis();
}
