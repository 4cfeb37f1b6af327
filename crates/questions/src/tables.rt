//! The questions of the rows of a site, and of the calls and families of a table.

ghost use Rattle.std.specs.Prelude.{◌≡◌, ◌++◌, ◌&&◌, false, length, map, slice_get, OnOk};
ghost use Rattle.std.specs.Option.{option_map_or};
ghost use Rattle.kernel_laws.specs.call_table.Members.{is_first};
ghost use Rattle.kernel_laws.specs.call_table.Table.{every_call};
ghost use Rattle.kernel_laws.specs.kernel_model.kernel_calls.Rules.{rule_of};
ghost use Rattle.kernel_laws.specs.Questions.{if_so, is_plain, of_row, of_rows, of_calls, of_families};
ghost use Rattle.kernel_laws.specs.declared.question_types.question.Question.TheVariants.{Call};

use kernel_laws::question_types::{Question, Wish};
use kernel_laws::{CallLine, CallTable, Row, RowKind, is_known};
use std::alloc::AllocError;

// Adds the questions about a row: to see and read it, to write it unless it is a directory, and to execute an executable.
fn push_row(list: &mut Vec<Question>, at: usize, row: &Row) -> Result<(), AllocError>
    ensures { OnOk result (list.new.items ≡ list.old.items ++ of_row at row.now) }
{
    list.push(Question::Path(Wish::See, at))?;
    list.push(Question::Path(Wish::Read, at))?;
    match row.kind {
        RowKind::Dir => {}
        RowKind::File | RowKind::Dev => list.push(Question::Path(Wish::Write, at))?,
        RowKind::Exe => {
            list.push(Question::Path(Wish::Write, at))?;
            list.push(Question::Path(Wish::Exec, at))?;
        }
    }
    Ok(())
}

// Adds the questions about the rows.
pub(crate) fn push_rows(list: &mut Vec<Question>, rows: &[Row]) -> Result<(), AllocError>
    ensures { OnOk result (list.new.items ≡ list.old.items ++ of_rows 0 rows.now) }
{
    for (at, row) in rows.iter().enumerate() {
        push_row(list, at, row)?;
    }
    Ok(())
}

// Returns whether the call of this line is plain: the kernel has no rule for its name, and does not lack it.
fn is_plain(line: &CallLine) -> bool
    ensures { result ≡ is_plain (rule_of line.now) }
{
    !is_known(line.kernel, line.name.as_str())
}

// Returns how many calls there are, in all ABIs.
#[tactic(auto, using(crate::proofs::AllCalls::count_all))]
fn count_calls(table: &CallTable) -> usize
    ensures { result ≡ length (every_call table.now) }
{
    table.calls().len() + table.calls_in(1).len()
}

// Returns whether the line of this number is the first of its name.
fn is_first(table: &CallTable, at: usize, line: &CallLine) -> bool
    ensures { result ≡ is_first (every_call table.now) line.now.name at }
{
    match table.position(line.name.as_str()) {
        Some(place) => place == at,
        None => false,
    }
}

// Returns whether the list has a question for the call of this number: it is plain, and its line is the first of its
// name.
fn is_asked(table: &CallTable, at: usize) -> bool
    ensures { let every = every_call table.now in
        result ≡ option_map_or (λ line. is_plain (rule_of line) && is_first every line.name at) (slice_get every at) false }
{
    match table.call_at(at) {
        Some(line) => is_plain(line) && is_first(table, at, line),
        None => false,
    }
}

// Adds the question about the call of this number: to make it.
fn push_call(list: &mut Vec<Question>, table: &CallTable, at: usize) -> Result<(), AllocError>
    ensures { let every = every_call table.now in
        OnOk result (list.new.items ≡ list.old.items ++ if_so (option_map_or (λ line. is_plain (rule_of line) && is_first every line.name at) (slice_get every at) false) (Call at)) }
{
    if is_asked(table, at) {
        list.push(Question::Call(at))?;
    }
    Ok(())
}

// Adds the questions about the calls.
pub(crate) fn push_calls(list: &mut Vec<Question>, table: &CallTable) -> Result<(), AllocError>
    ensures { OnOk result (list.new.items ≡ list.old.items ++ of_calls (every_call table.now) 0 (every_call table.now)) }
{
    for at in 0..count_calls(table) {
        push_call(list, table, at)?;
    }
    Ok(())
}

// Adds the questions about the families: to make a socket of each.
pub(crate) fn push_families(
    list: &mut Vec<Question>,
    families: &[CallLine],
) -> Result<(), AllocError>
    ensures { OnOk result (list.new.items ≡ list.old.items ++ of_families 0 families.now) }
{
    for at in 0..families.len() {
        list.push(Question::Socket(at))?;
    }
    Ok(())
}
