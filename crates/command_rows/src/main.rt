//! Runs rows of whole runs over files in memory, and prints their output and their status.
//!
//! A line `part NAME` of the standard input begins the rows of a part, and prints nothing. The part `limits` has the
//! limits and faults of runs. The part `runs` has the following lines, each a step:
//!
//! | Line | Step |
//! |---|---|
//! | `file PATH` | begins a file, which further rows keep |
//! | `\|TEXT`, `>TEXT`, `many N TEXT`, `times N TEXT` | adds a line, a text, a text so many times, so many lines to it |
//! | `nul`, `no-text` | adds a zero byte, a byte that is no text |
//! | `more PATH`, `no-file PATH` | continues a file, removes it |
//! | `word WORD` | adds a word |
//! | `take N` | sets how much the sink takes at once |
//! | `fail-read N`, `fail-put N` | sets which call fails |
//! | `wish yes`, `wish no` | hands in a wish that always answers so, in place of the program's wish |
//! | `run` | runs these words, prints them with the status and the output, and begins the next row |
//! | `ask NUMBER WORD ..` | asks the printed filters about a call, which are read back; their answers replace them. `i386` before the number is that architecture |
//! | `seek LINE` | says, in place of the output, if it has the line, with the indented lines below, or lacks it |
//! | `seek FRONT*` | counts the lines that begin so |
//! | `circle` | judges the unit of the first word, replays the list of calls below each open question, and says how many lists are done whole and which are not |
//! | `# ..` | says what the next rows show |
#![tactic(auto)]

mod asked;
mod circle;
mod files;
mod limits;
mod parts;
mod rows;
mod runs;
mod sought;
mod whole;

use parts::Parts;
use row_tools::follow_lines;
use std::io;

fn main(rt: HostRuntime) -> io::Result<()> {
    follow_lines(&rt, &mut Parts::new(rt.alloc()))
}
