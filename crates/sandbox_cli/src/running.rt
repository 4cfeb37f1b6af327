//! A run of the program's arguments, over any files and any output.
ghost use Rattle.std.specs.Prelude.{◌≡◌, IfOk, drop, map, string_bytes};
ghost use Rattle.std.specs.Process.{exit_status};
ghost use Rattle.top_call.specs.host_io.Agreeing.{ForFiles};
ghost use Rattle.top_call.specs.unit_inputs.command_answers.ExitStatuses.{code_of};
ghost use Rattle.top_call.specs.Around.{around};
ghost use Rattle.sandbox_cli.specs.Running.{EndsWords, ExitsBy, asked_by, words_behind};
ghost use Rattle.sandbox_cli.specs.Tests.{AreProgramTests};
ghost use Rattle.sandbox_cli.specs.Wishes.{AreProgramWishes};

use host_io::{Shelf, Sink};
use std::alloc::{AllocError, Global};
use std::io;
use std::process::ExitCode;
use top_call::{
    CustomTest, ExitStatus, Facts, Status, Stored, StoredWish, VerdictRow, Wished, run,
};

// The words after the program's name, which is the first argument.
fn behind_name(all: &[String]) -> &[String]
    ensures in_order { result.now ≡ drop 1 all.now }
{
    match all {
        [] => all,
        [_, words @ ..] => words,
    }
}

// The same words, lent as texts.
fn texts_of<'a>(alloc: Global, words: &'a [String]) -> Result<Vec<&'a str>, AllocError>
    ensures same_words { IfOk result (λ texts. map (λ text. text.now) texts.items ≡ map string_bytes words.now) }
{
    let mut texts = Vec::new(alloc);
    for word in words {
        texts.push(word.as_str())?;
    }
    Ok(texts)
}

/// The exit status of a run that ends so.
pub fn exit_code(status: Status) -> ExitCode
    ensures of_the_status { exit_status result ≡ code_of status }
{
    ExitCode::from(status.code)
}

// The status of a run of these words with these tests and wishes.
fn run_words<S: Shelf, K: Sink>(
    alloc: Global,
    words: &[String],
    tests: Vec<CustomTest>,
    wishes: Vec<StoredWish>,
    shelf: &mut S,
    out: &mut K,
) -> Status
    ensures ends_as_the_words_run { EndsWords S.asks
        (asked_by (map string_bytes words.now) (S.agrees shelf.new) (⟦<CustomTest as Stored>⟧.stored tests.items) (⟦<StoredWish as Wished>⟧.wished wishes.items))
        (around S.faults K.faults K.taken K.puts shelf.old shelf.new out.old out.new)
        shelf.old shelf.new out.old out.new result }
    ensures answers_stay { ForFiles (S.agrees shelf.new) (S.agrees shelf.old) }
{
    match texts_of(alloc, words) {
        Ok(texts) => run(alloc, texts.as_slice(), shelf, out, tests, wishes),
        Err(_) => Status::of(ExitStatus::OutOfMemory),
    }
}

// The same of all arguments. Where one of them is not text there are no words, and these are no command either.
fn run_arguments<S: Shelf, K: Sink>(
    alloc: Global,
    arguments: &io::Result<Vec<String>>,
    tests: Vec<CustomTest>,
    wishes: Vec<StoredWish>,
    shelf: &mut S,
    out: &mut K,
) -> Status
    ensures ends_as_the_words_run { EndsWords S.asks
        (asked_by (words_behind arguments.now) (S.agrees shelf.new) (⟦<CustomTest as Stored>⟧.stored tests.items) (⟦<StoredWish as Wished>⟧.wished wishes.items))
        (around S.faults K.faults K.taken K.puts shelf.old shelf.new out.old out.new)
        shelf.old shelf.new out.old out.new result }
    ensures answers_stay { ForFiles (S.agrees shelf.new) (S.agrees shelf.old) }
{
    match arguments {
        Ok(all) => run_words(alloc, behind_name(all), tests, wishes, shelf, out),
        Err(error) if error.kind() == io::ErrorKind::InvalidData => {
            run_words(alloc, &[], tests, wishes, shelf, out)
        }
        Err(_) => Status::of(ExitStatus::OutOfMemory),
    }
}

/// Runs the words after the program's name, in their order, over a shelf and a sink, with the program's two stored tests and
/// its wish. The exit status is the status of that run, or the status for lack of memory.
pub fn run_here<S: Shelf, K: Sink>(
    alloc: Global,
    arguments: &io::Result<Vec<String>>,
    tests: Vec<CustomTest>,
    wishes: Vec<StoredWish>,
    shelf: &mut S,
    out: &mut K,
) -> ExitCode
    requires the_programs_tests { AreProgramTests (λ test. test.id) (λ test. test.range) (λ test. ⟦<Box<dyn Fn(&Facts) -> u32> as Fn(&Facts) -> u32>⟧.post test.check) tests.items }
    requires the_programs_wishes { AreProgramWishes (λ wish. string_bytes wish.id) (λ wish. wish.must_open) (λ wish. ⟦<Box<dyn Fn(&[VerdictRow]) -> bool> as Fn(&[VerdictRow]) -> bool>⟧.post wish.test) wishes.items }
    ensures exits_as_the_words_run { ExitsBy (EndsWords S.asks
        (asked_by (words_behind arguments.now) (S.agrees shelf.new) (⟦<CustomTest as Stored>⟧.stored tests.items) (⟦<StoredWish as Wished>⟧.wished wishes.items))
        (around S.faults K.faults K.taken K.puts shelf.old shelf.new out.old out.new)
        shelf.old shelf.new out.old out.new) result }
    ensures answers_stay { ForFiles (S.agrees shelf.new) (S.agrees shelf.old) }
{
    exit_code(run_arguments(alloc, arguments, tests, wishes, shelf, out))
}
