//! A replay, ready to be made and printed.
ghost use Rattle.std.specs.Prelude.{◌≡◌};
ghost use Rattle.replay_command.specs.Texts.{status_behind};

use crate::printing::print_replay;
use asked_service::{CallTable, ExitStatus, LaunchError, Launched, Ready, Script};
use host_io::{Sink, SinkError};
use std::alloc::Global;

/// A unit that is launched, and the script whose calls are made in its world while their lines are printed.
#[derive(Drop)]
pub struct Replay<'a> {
    /// What the launch came to.
    pub launch: Result<Launched<'a>, LaunchError>,
    /// The calls to be made.
    pub script: &'a Script,
    /// The table by which the calls are printed.
    pub calls: &'a CallTable,
}

// How a run ends after this result of the launch.
fn status_behind(launch: &Result<Launched, LaunchError>) -> ExitStatus
    ensures { result ≡ status_behind launch.now }
{
    match launch {
        Ok(_) => ExitStatus::Done,
        Err(_) => ExitStatus::LaunchRefused,
    }
}

impl<'a> Ready for Replay<'a> {
    ghost use Rattle.replay_command.specs.Started.{status_of, text_of};

    ghost text = { text_of };

    ghost status = { status_of };

    fn status(&self) -> ExitStatus {
        status_behind(&self.launch)
    }

    fn print<K: Sink>(&mut self, alloc: Global, out: &mut K) -> Result<(), SinkError> {
        print_replay(alloc, &mut self.launch, self.script, self.calls, out)
    }
}
