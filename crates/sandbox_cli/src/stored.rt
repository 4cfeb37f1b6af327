//! The stored tests of the program, and its wish.

ghost use Rattle.std.specs.Prelude.{◌≡◌, ◌≤◌, IfErr, IfOk};
ghost use Rattle.top_call.specs.host_io.Agreeing.{ForFiles};
ghost use Rattle.top_call.specs.Around.{around};
ghost use Rattle.top_call.specs.exposure_score.Stored.{ambient_count, writable_paths};
ghost use Rattle.top_call.specs.unit_inputs.command_answers.Runs.{HasFaultCause};
ghost use Rattle.sandbox_cli.specs.Running.{ExitsBy};
ghost use Rattle.sandbox_cli.specs.Wishes.{can_execute};

use crate::executing::can_execute;
use crate::running::run_here;
use host_io::{Shelf, Sink};
use std::alloc::{AllocError, Global};
use std::io;
use std::process::ExitCode;
use top_call::{CustomTest, Facts, StoredWish, VerdictRow, ambient_count, writable_paths};

/// Runs the arguments over a shelf and a sink, with two tests that a score may ask beside the settings and the wish
/// for a tightened unit.
/// - `AmbientCount` is the number of ambient capabilities that the service has, of 41 at most.
/// - `WritablePaths` is the number of words of ReadWritePaths= and BindPaths= in force, of 128 at most.
/// - The wish `OpenExec` is that some file can be executed.
pub fn run_with_tests<S: Shelf, K: Sink>(
    alloc: Global,
    arguments: &io::Result<Vec<String>>,
    shelf: &mut S,
    out: &mut K,
) -> Result<ExitCode, AllocError>
    ensures faults_have_causes { IfOk result (ExitsBy (λ status. HasFaultCause status
        (around S.faults K.faults K.taken K.puts shelf.old shelf.new out.old out.new))) }
    ensures answers_stay { ForFiles (S.agrees shelf.new) (S.agrees shelf.old) }

    // Without memory for the tests and the wish nothing is read or written.
    ensures shelf_stays_without_memory { IfErr result (λ error. shelf.new ≡ shelf.old) }
    ensures sink_stays_without_memory { IfErr result (λ error. out.new ≡ out.old) }
{
    let capabilities = Box::new(
        alloc,
        |facts: &Facts|
            ensures count { result ≡ ambient_count facts.now }
            ensures at_most_all { result ≤ 41 }
        { ambient_count(facts) },
    )?;
    let paths = Box::new(
        alloc,
        |facts: &Facts|
            ensures count { result ≡ writable_paths facts.now }
            ensures at_most_128 { result ≤ 128 }
        { writable_paths(facts) },
    )?;
    let executes = Box::new(
        alloc,
        |rows: &[VerdictRow]|
            ensures by_the_verdicts { result ≡ can_execute rows.now }
        { can_execute(rows) },
    )?;
    let mut tests = Vec::new(alloc);
    tests.push(CustomTest::new(String::from_str(alloc, "AmbientCount")?, 41, capabilities))?;
    tests.push(CustomTest::new(String::from_str(alloc, "WritablePaths")?, 128, paths))?;
    let mut wishes = Vec::new(alloc);
    wishes.push(StoredWish::new(
        String::from_str(alloc, "OpenExec")?,
        Vec::new(alloc),
        executes,
    ))?;
    Ok(run_here(alloc, arguments, tests, wishes, shelf, out))
}
