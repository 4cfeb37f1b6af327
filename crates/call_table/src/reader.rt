// Reads the table, line by line.
//
// `line_text` gives the lines and `kinds` their kinds; `lists` judges a line by the lines before it.
ghost use Rattle.std.specs.Prelude.{◌≡◌, ◌≢◌, true, map, IfOk, IfErr, Ok, Err};
ghost use Rattle.call_table.specs.declared.causes.CallsError.TheVariants.{Memory};
ghost use Rattle.text_forms.specs.line_text.Views.{line_view};
ghost use Rattle.call_table.specs.Kinds.{kind_of};
ghost use Rattle.call_table.specs.Table.{Table};
ghost use Rattle.call_table.specs.Reading.{is_version_by, is_version, is_first_version, with_version, table_from, table_of_lines, table_of};
ghost use Rattle.call_table.specs.Progress.{IsUnlessMemory, ReadsRest, Opens};
ghost use Rattle.call_table.specs.Meaning.{ReadsTable};

use crate::causes::{CallsCause, CallsError};
use crate::kinds::{Kind, kind_of_words};
use crate::lists::Lists;
use crate::names::Name;
use crate::numbers::read_arch;
use crate::table::CallTable;
use std::alloc::{AllocError, Global};
use text_forms::line_text::{Line, read_lines, read_text, words};

// Reads the name and the architecture of the first abi line.
#[tactic(auto, unfolding(crate::specs::Reading::line_kind))]
fn read_abi(alloc: Global, line: &Line) -> Result<(Name, u32), CallsError>
    ensures { Opens (line_view line.now) result }
{
    let words = words(alloc, line.text)?;
    let Kind::Abi(name, digits) = kind_of_words(words.as_slice()) else {
        return Err(CallsError::Line(line.number, CallsCause::Words));
    };
    let Some(arch) = read_arch(digits) else {
        return Err(CallsError::Line(line.number, CallsCause::Number));
    };
    Ok((Name::new(alloc, name)?, arch))
}

// Reads the lines after the first abi line.
fn read_rest(
    alloc: Global,
    two: bool,
    name: Name,
    arch: u32,
    lines: &[Line],
) -> Result<Lists, CallsError>
    ensures { ReadsRest two (record { name = name; arch = arch }) (map line_view lines.now) result }
{
    let mut lists = Lists::new(alloc, name, arch);
    for line in lines {
        lists.take(alloc, two, line)?;
    }
    Ok(lists)
}

// Reads the first abi line and the lines after it.
fn read_from(alloc: Global, two: bool, lines: &[Line]) -> Result<CallTable, CallsError>
    ensures { IsUnlessMemory result (table_from two (map line_view lines.now)) }
{
    let (first, rest) = lines.split_first().ok_or(CallsError::NoAbi)?;
    let (name, arch) = read_abi(alloc, first)?;
    CallTable::of(alloc, read_rest(alloc, two, name, arch, rest)?)
}

fn are_version(words: &[&str]) -> bool
    ensures { result ≡ is_version_by (map (λ word. word.now) words.now) }
{
    match words {
        [word, number] => *word == "version" && *number == "2",
        _ => false,
    }
}

// Returns whether the line announces two ABIs.
#[tactic(auto, unfolding(crate::specs::Reading::is_version))]
fn is_version(alloc: Global, line: &Line) -> Result<bool, AllocError>
    ensures { IfOk result (λ found. found ≡ is_version (line_view line.now)) }
{
    let words = words(alloc, line.text)?;
    Ok(are_version(words.as_slice()))
}

// Returns the table of the lines that are not skipped.
fn read_table(alloc: Global, lines: &[Line]) -> Result<CallTable, CallsError>
    ensures { IsUnlessMemory result (table_of_lines (map line_view lines.now)) }
{
    let (first, rest) = lines.split_first().ok_or(CallsError::NoAbi)?;
    if is_version(alloc, first)? {
        return read_from(alloc, true, rest);
    }
    read_from(alloc, false, lines)
}

// Returns the table of the bytes.
#[tactic(auto, unfolding(crate::specs::Reading::table_of))]
fn read_bytes(alloc: Global, bytes: &[u8]) -> Result<CallTable, CallsError>
    ensures { IsUnlessMemory result (table_of bytes.now) }
{
    let Some(text) = read_text(bytes) else {
        return Err(CallsError::NotText);
    };
    let lines = read_lines(alloc, text)?;
    read_table(alloc, lines.as_slice())
}

/// Reads the table of system calls in the bytes of calls.txt.
///
/// Each LF ends a line. Empty lines and lines that begin with `#` are skipped, and spaces separate words. The first line is
/// `abi NAME ARCH`, which is the native ABI; ARCH is eight hex digits in lower case. The lines after it are
/// `call NAME NUMBER [CAP]`, `family NAME NUMBER [CAP]` and `group @NAME MEMBER ..`, in any order. NUMBER is decimal
/// and below 2^32, and CAP is the name of a capability (capabilities(7)). A member is the name of a call, or `@` and
/// the name of a group, of an earlier line. A call has no CAP if the kernel models it by a rule of its own or lacks it.
///
/// After a first line `version 2`, one further `abi` line may follow, with another name and another ARCH. Its name is not
/// `native`. A call belongs to the last ABI before it. That ABI has the name and the number of the call once. If the other ABI
/// has a call of this name, both have the same CAP. A member means the calls of its name in both ABIs.
///
/// It returns the first of these refusals:
/// - `NotText`, if the bytes are not UTF-8 or have a NUL;
/// - `Line` of the first faulty line, with the first of its causes in the order of `CallsCause`;
/// - `NoAbi`, if no line is left for the first `abi`;
/// - `NoCall` with the first of the calls capset, execve, prctl, seccomp, setgroups, setresgid, setresuid and unshare
///   that the native ABI lacks.
pub fn read_calls(alloc: Global, bytes: &[u8]) -> Result<CallTable, CallsError>
    ensures reads_the_table { IfOk result (λ table. table_of bytes.now ≡ Ok table) }
    ensures first_refusal { IfErr result (λ error. error ≢ Memory → table_of bytes.now ≡ Err error) }
    // Each list of the table has exactly the lines of its kind.
    ensures reading_is_of_lines { (table : Table) → table_of bytes.now ≡ Ok table → ReadsTable bytes.now table }
{
    read_bytes(alloc, bytes)
}

/// States that a text without a first line `version 2` stays accepted with that line in front of it, and has the same table.
pub fn same_reading(_bytes: &[u8])
    ensures same_table { (table : Table) → is_first_version _bytes.now ≡ true → table_of _bytes.now ≡ Ok table → table_of (with_version _bytes.now) ≡ Ok table }
{}
