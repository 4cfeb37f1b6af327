//! A line of a script, which gives a call.

ghost use Rattle.std.specs.Prelude.{Some, map};
ghost use Rattle.script_text.specs.Reading.{call_of, with_name};
ghost use Rattle.script_text.specs.Scripts.{line_call};
ghost use Rattle.script_text.specs.Progress.{ReadsCall};
ghost use Rattle.script_text.specs.Views.{view_named};
ghost use Rattle.kernel_model.specs.text_forms.line_text.Views.{line_view};

use crate::arguments::{read_numbers, read_pid, six_words};
use crate::error::ScriptCause;
use crate::line_fault::LineFault;
use crate::names::{NamedCall, find_call};
use crate::payloads::take_payload;
use kernel_model::kernel_calls::Call;
use kernel_model::{CallTable, Line, words};
use std::alloc::Global;

// the call of a process, by the words after the name of the call
fn read_named(alloc: Global, pid: u32, named: NamedCall, words: &[&str]) -> Result<Call, LineFault>
    ensures { ReadsCall (with_name pid (map (λ word. word.now) words.now) (Some (view_named named))) result }
{
    let taken = take_payload(alloc, named.form, words)?;
    let numbers = read_numbers(alloc, taken.rest)?;
    if numbers.len() > 6 {
        return Err(LineFault::Faulty(ScriptCause::Words));
    }
    Ok(Call {
        pid,
        abi: named.abi,
        nr: named.nr,
        args: six_words(numbers.as_slice()),
        payload: taken.payload,
    })
}

// the call that words write
fn read_words(alloc: Global, calls: &CallTable, words: &[&str]) -> Result<Call, LineFault>
    ensures { ReadsCall (call_of calls.now (map (λ word. word.now) words.now)) result }
{
    let Some((pid, behind)) = words.split_first() else {
        return Err(LineFault::Faulty(ScriptCause::Pid));
    };
    let pid = read_pid(pid).ok_or(LineFault::Faulty(ScriptCause::Pid))?;
    let Some((name, behind)) = behind.split_first() else {
        return Err(LineFault::Faulty(ScriptCause::Words));
    };
    let named = find_call(calls, name).ok_or(LineFault::Faulty(ScriptCause::Name))?;
    read_named(alloc, pid, named, behind)
}

/// The call that a line writes, with this table of calls.
#[tactic(auto, unfolding(crate::specs::Scripts::line_call))]
pub(crate) fn read_line(alloc: Global, calls: &CallTable, line: &Line) -> Result<Call, LineFault>
    ensures { ReadsCall (line_call calls.now (line_view line.now)) result }
{
    let words = words(alloc, line.text)?;
    read_words(alloc, calls, words.as_slice())
}
