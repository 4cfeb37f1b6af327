//! The process around a run: its arguments, the current folder and the standard output. Of what these hold nothing is known.

ghost use Rattle.std.specs.Prelude.{◌≡◌, IfOk};
ghost use Rattle.sandbox_cli.specs.Running.{ExitsUnlessMemory, IsExit};

use crate::running::exit_code;
use crate::stored::run_with_tests;
use host_io::{DirShelf, StdSink};
use std::alloc::AllocError;
use std::process::ExitCode;
use std::rt::{Env, Files};
use std::{env, io};
use top_call::{ExitStatus, Status};

// The arguments, the program's name the first of them.
fn arguments<R: Env + AllocGlobal>(rt: &R) -> io::Result<Vec<String>> {
    let all = env::args(rt)?.collect(rt.alloc())?;
    Ok(all)
}

// Runs them. Without memory for the tests and the wish there is no exit status.
fn run_arguments<R: Env + Files + Print + AllocGlobal + Clone + Drop>(
    rt: &R,
) -> Result<ExitCode, AllocError>
    ensures exits_by_a_status { IfOk result IsExit }
{
    let mut shelf = DirShelf::new(rt.clone()?);
    let mut sink = StdSink::new(rt.clone()?);
    run_with_tests(rt.alloc(), &arguments(rt), &mut shelf, &mut sink)
}

// The exit status that was made, or the status for lack of memory.
fn or_out_of_memory(made: Result<ExitCode, AllocError>) -> ExitCode
    ensures exits_unless_memory { ExitsUnlessMemory made result }
{
    match made {
        Ok(code) => code,
        Err(_) => exit_code(Status::of(ExitStatus::OutOfMemory)),
    }
}

/// Runs the words of the process over the current folder and the standard output, and answers the status that it ends with.
pub fn run_process<R: Env + Files + Print + AllocGlobal + Clone + Drop>(rt: &R) -> ExitCode
    ensures exits_by_a_status { IsExit result }
{
    or_out_of_memory(run_arguments(rt))
}
