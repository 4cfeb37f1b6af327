//! Fixed texts.
ghost use Rattle.std.specs.Prelude.{◌≡◌};
ghost use Rattle.top_call.specs.Texts.{help_text, text_of, version_text, words_line};

use host_io::{Sink, SinkError};
use plan_command::{ExitStatus, Ready, put_lines};
use std::alloc::Global;

/// What the program is for, its words, the files that it reads, and its statuses.
const HELP: &str = concat!(
    "Lentsheep judges the sandbox of a systemd service without starting it.\n",
    "\n",
    "usage: lentsheep COMMAND UNIT [NAME] [FILE [THRESHOLD]]\n",
    "\n",
    "  filter UNIT    print the compiled seccomp filters of the unit\n",
    "  plan UNIT      print the mounts that give the service its view of files\n",
    "  judge UNIT     launch the service in a model, print what no calls of it reach,\n",
    "                 and calls that reach the rest\n",
    "  replay UNIT SCRIPT\n",
    "                 launch it, make the calls of SCRIPT, print what each comes to\n",
    "  derive UNIT SCRIPT\n",
    "                 print the least list of calls that lets SCRIPT through, as a drop-in\n",
    "  effect UNIT DROPIN\n",
    "                 print what DROPIN, applied last, would close and open\n",
    "  tighten UNIT KEEP\n",
    "                 print the settings that can be added while all of KEEP stays open\n",
    "  why UNIT [QUESTION]\n",
    "                 print which lines of UNIT deny QUESTION, as judge words it,\n",
    "                 or without one what each line denies by itself\n",
    "  score UNIT POLICY [THRESHOLD]\n",
    "                 weigh what its sandbox leaves open, 0 to 100 in all\n",
    "  check UNIT NAME FILE\n",
    "                 tell whether a filter from elsewhere decides every call as NAME does\n",
    "  fleet POLICY   score all units, the greatest exposure first\n",
    "  sample N       judge a made input of the number N, 0 to 999, and print counts\n",
    "  --help         print this text\n",
    "  --version      print the name and the version\n",
    "\n",
    "UNIT is the name of a service, as web.service. Files are read below the current folder:\n",
    "\n",
    "  etc/systemd/system/UNIT, and the same below run/systemd and usr/lib/systemd,\n",
    "                 the unit, with its drop-ins beside it\n",
    "  calls.txt      the table of system calls and their groups\n",
    "  site.toml      the files, the users and the groups of the host\n",
    "  SCRIPT         calls to make, one a line: PID NAME [PAYLOAD] [NUMBER ..]\n",
    "  DROPIN         a file of settings, as the drop-ins of a unit are\n",
    "  KEEP           questions to be kept open, one a line as judge prints them\n",
    "  POLICY         what tests of the sandbox weigh, as JSON\n",
    "  FILE           a filter, 16 lower-case hex digits a line; NAME is one of the unit\n",
    "\n",
    "The status says how it ended:\n",
    "\n",
    "  0  done\n",
    "  1  the exposure of score is above THRESHOLD\n",
    "  2  the words are no command\n",
    "  3  an input is refused, and the line says which and why\n",
    "  4  a read failed, and nothing was printed\n",
    "  5  a write failed, and the text was cut\n",
    "  6  memory ran out, and the text was cut\n",
    "  7  the launch of judge, replay, derive, effect, tighten or why is refused\n",
    "  8  the filters of check differ, and the line says where\n",
    "\n",
    "lentsheep --root / COMMAND UNIT judges a service of this machine; --root --help says more.\n",
    "The manual is lentsheep(1). In a checkout the command is ./sandbox, and the manual README.md.\n",
);

/// The name and the version.
const VERSION: &str = "lentsheep 0.1.0\n";

/// Words that are no command.
const NO_COMMAND: &str = "refused words\n";

/// A fixed text.
#[derive(Drop)]
pub struct Fixed {
    status: ExitStatus,
    text: &'static str,
}

impl Ready for Fixed {
    ghost use Rattle.top_call.specs.Texts.{status_of, text_of};

    ghost text = { text_of };

    ghost status = { status_of };

    fn status(&self) -> ExitStatus {
        self.status
    }

    fn print<K: Sink>(&mut self, _alloc: Global, out: &mut K) -> Result<(), SinkError> {
        put_lines(out, self.text.as_bytes())
    }
}

/// What the program is for, and its words.
pub fn help() -> Fixed
    ensures text { text_of result ≡ help_text }
    ensures status { result.status ≡ ExitStatus.Done }
{
    Fixed {
        status: ExitStatus::Done,
        text: HELP,
    }
}

/// The name and the version.
pub fn version() -> Fixed
    ensures text { text_of result ≡ version_text }
    ensures status { result.status ≡ ExitStatus.Done }
{
    Fixed {
        status: ExitStatus::Done,
        text: VERSION,
    }
}

/// The line of words that are no command.
pub fn no_command() -> Fixed
    ensures text { text_of result ≡ words_line }
    ensures status { result.status ≡ ExitStatus.NoCommand }
{
    Fixed {
        status: ExitStatus::NoCommand,
        text: NO_COMMAND,
    }
}
