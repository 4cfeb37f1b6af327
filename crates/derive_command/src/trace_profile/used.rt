//! The names that a script uses.

ghost use Rattle.std.specs.Prelude.{◌≡◌, ◌==◌, ℕ, IfOk, false, length, slice_index_or};
ghost use Rattle.std.specs.List.{list_any};
ghost use Rattle.asked_service.specs.call_table.Members.{is_first};
ghost use Rattle.asked_service.specs.call_table.Table.{every_call};
ghost use Rattle.derive_command.specs.trace_profile.Used.{AreMarks, MarksLess, MarksMore, is_in_default, is_line_of, is_used};

use asked_service::{Call, CallTable};
use std::alloc::{AllocError, Global};

// Marks the first line of this name.
fn mark_name(calls: &CallTable, marks: &mut [bool], name: &str)
    requires as_many { length marks.old ≡ length (every_call calls.now) }
    ensures { MarksMore (is_first (every_call calls.now) name.now) marks.old marks.new }
{
    match calls.position(name) {
        Some(place) => marks[place] = true,
        None => {}
    }
}

// Marks the first line of the name that a call has.
fn mark_call(calls: &CallTable, marks: &mut [bool], call: &Call)
    requires as_many { length marks.old ≡ length (every_call calls.now) }
    ensures { MarksMore (λ at. is_line_of calls.now at call.now) marks.old marks.new }
{
    match calls.name_in(call.abi, call.nr) {
        Some(name) => mark_name(calls, marks, name),
        None => {}
    }
}

// Marks the first lines of the names of all calls of a script.
fn mark_calls(calls: &CallTable, marks: &mut [bool], script: &[Call])
    requires as_many { length marks.old ≡ length (every_call calls.now) }
    ensures { MarksMore (λ at. list_any (is_line_of calls.now at) script.now) marks.old marks.new }
{
    for call in script {
        mark_call(calls, marks, call);
    }
}

// Takes away the mark at a place, where there is one.
fn clear(marks: &mut [bool], place: usize)
    ensures { MarksLess (λ at. place == at) marks.old marks.new }
{
    if place < marks.len() {
        marks[place] = false;
    }
}

// Takes away the marks at these places.
fn clear_all(marks: &mut [bool], places: &[usize])
    ensures { MarksLess (λ at. list_any (λ place. place == at) places.now) marks.old marks.new }
{
    for place in places {
        clear(marks, *place);
    }
}

// Takes away the marks of the members of `@default`.
fn clear_default(calls: &CallTable, marks: &mut [bool])
    ensures { MarksLess (is_in_default calls.now) marks.old marks.new }
{
    match calls.members("default") {
        Some(members) => clear_all(marks, members),
        None => {}
    }
}

// Marks the names in use, where none is marked yet.
fn mark_used(calls: &CallTable, marks: &mut [bool], script: &[Call])
    requires as_many { length marks.old ≡ length (every_call calls.now) }
    requires unmarked { (at : ℕ) → slice_index_or marks.old at false ≡ false }
    ensures { AreMarks (is_used calls.now script.now) marks.new }
{
    mark_name(calls, marks, "execve");
    mark_calls(calls, marks, script);
    clear_default(calls, marks);
}

/// Marks the names that a launch needs last and that the script uses, at their places, and none of `@default`: a guess from
/// which the search begins.
#[tactic(auto, using(crate::proofs::Lists::count_all))]
pub fn used_marks(
    alloc: Global,
    calls: &CallTable,
    script: &[Call],
) -> Result<Vec<bool>, AllocError>
    ensures one_for_each_line { IfOk result (λ marks. length marks.items ≡ length (every_call calls.now)) }
    ensures marks_the_names_in_use { IfOk result (λ marks. AreMarks (is_used calls.now script.now) marks.items) }
{
    let mut marks = vec![in alloc; false; calls.calls().len() + calls.calls_in(1).len()]?;
    mark_used(calls, &mut marks, script);
    Ok(marks)
}
