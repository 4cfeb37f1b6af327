//! Lentsheep judges the sandbox of a systemd service without starting it.
//!
//! `main` runs the words of the process over the current folder and the standard output, with two stored tests and a
//! wish, and ends with the status. `top_call` has the top call, with its words, its texts and its statuses.
#![tactic(auto)]

mod executing;
mod process;
mod running;
mod stored;

use std::process::ExitCode;

fn main(rt: HostRuntime) -> ExitCode {
    process::run_process(&rt)
}
