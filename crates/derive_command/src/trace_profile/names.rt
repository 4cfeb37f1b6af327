//! Lists of names, each by the place of its first line.

ghost use Rattle.std.specs.Prelude.{◌≡◌, ◌∷◌, [], ◌++◌, IfOk, OnOk, cond, filter, length};
ghost use Rattle.asked_service.specs.call_table.Members.{is_first};
ghost use Rattle.asked_service.specs.call_table.Table.{every_call};
ghost use Rattle.derive_command.specs.trace_profile.Extended.{every_name, is_first_line};
ghost use Rattle.derive_command.specs.trace_profile.Names.{is_marked, without};

use crate::trace_profile::extending::name_at;
use asked_service::CallTable;
use std::alloc::{AllocError, Global};

/// How many call lines there are, in all ABIs.
#[tactic(auto, using(crate::proofs::Lists::count_all))]
pub fn count_lines(calls: &CallTable) -> u32
    ensures { result ≡ length (every_call calls.now) }
{
    calls.calls().len() as u32 + calls.calls_in(1).len() as u32
}

// Whether the first line of a name is at a place.
fn is_first(calls: &CallTable, name: &str, place: u32) -> bool
    ensures { result ≡ is_first (every_call calls.now) name.now place }
{
    match calls.position(name) {
        Some(first) => first == place as usize,
        None => false,
    }
}

// Whether the line at a place is the first of its name.
fn is_first_line(calls: &CallTable, place: u32) -> bool
    ensures { result ≡ is_first_line calls.now place }
{
    is_first(calls, name_at(calls, place), place)
}

// Appends a place if it is the first line of its name.
fn push_first(names: &mut Vec<u32>, calls: &CallTable, place: u32) -> Result<(), AllocError>
    ensures { OnOk result (names.new.items ≡ names.old.items ++ cond (is_first_line calls.now place) (place ∷ []) []) }
{
    if is_first_line(calls, place) {
        names.push(place)?;
    }
    Ok(())
}

/// Every name of the table.
pub fn every_name(alloc: Global, calls: &CallTable) -> Result<Vec<u32>, AllocError>
    ensures all_of_the_table { IfOk result (λ names. names.items ≡ every_name calls.now) }
{
    let mut names = Vec::new(alloc);
    for place in 0..count_lines(calls) {
        push_first(&mut names, calls, place)?;
    }
    Ok(names)
}

/// The names but one.
pub fn without(alloc: Global, names: &[u32], name: u32) -> Result<Vec<u32>, AllocError>
    ensures all_but_one { IfOk result (λ others. others.items ≡ without name names.now) }
{
    let mut others = Vec::new(alloc);
    for one in names {
        if *one != name {
            others.push(*one)?;
        }
    }
    Ok(others)
}

// Whether the place is marked.
fn is_marked(marks: &[bool], place: u32) -> bool
    ensures { result ≡ is_marked marks.now place }
{
    match marks.get(place as usize) {
        Some(mark) => *mark,
        None => false,
    }
}

/// Returns the marked names.
pub fn marked(alloc: Global, names: &[u32], marks: &[bool]) -> Result<Vec<u32>, AllocError>
    ensures those_that_are_marked { IfOk result (λ some. some.items ≡ filter (is_marked marks.now) names.now) }
{
    let mut some = Vec::new(alloc);
    for place in names {
        if is_marked(marks, *place) {
            some.push(*place)?;
        }
    }
    Ok(some)
}
