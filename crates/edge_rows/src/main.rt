//! Runs rows over the real folder and the real output: the shelf `DirShelf` and the sink `StdSink`. One row is over a shelf
//! that changes while it is read.
//!
//! `data` has the folder that the program begins with. Each line of the standard input is a row of words, separated by
//! bars. The program writes it with its answer to the standard output, as one piece for the sink. A line that begins with
//! `#` says what the next rows show, and is written as it is.
//!
//! | Row | Step |
//! |---|---|
//! | `folder\|read\|PATH\|LIMIT`, `folder\|list\|FOLDER` | asks the shelf |
//! | `odd names\|list\|FOLDER`, `odd names\|read\|PATH\|LIMIT` | asks a shelf whose folders have a name that is no text |
//! | `fickle\|resolve\|NAME` | resolves a unit over a shelf that lists a file that it then lacks |
//! | `output\|put\|TEXT` | puts a text, which precedes its row |
//! | `make\|folder\|PATH`, `make\|link\|TARGET\|PATH`, `make\|pipe\|PATH` | makes a folder, a link, a link to a pipe |
//! | `make\|files\|FOLDER\|N` | makes so many empty files in a folder |
//! | `make\|closed\|PATH`, `make\|open\|PATH` | sets what the owner may do with a file or a folder |
#![tactic(auto)]

mod answers;
mod fickle;
mod making;
mod odd_names;

use answers::{put, read};
use fickle::resolved;
use host_io::{DirShelf, StdSink, write_whole};
use making::{Pipe, made};
use odd_names::OddNames;
use std::alloc::AllocError;
use std::io;

/// The real folder, the same with a name that is no text, and the real output.
#[derive(Drop)]
struct Edge {
    folder: DirShelf<HostRuntime>,
    odd: DirShelf<OddNames<HostRuntime>>,
    output: StdSink<HostRuntime>,
}

impl Edge {
    fn new(rt: &HostRuntime) -> Result<Self, AllocError> {
        Ok(Edge {
            folder: DirShelf::new(rt.clone()?),
            odd: DirShelf::new(OddNames::new(rt)?),
            output: StdSink::new(rt.clone()?),
        })
    }
}

fn main(rt: HostRuntime) -> io::Result<()> {
    follow_lines(&rt, &mut Edge::new(&rt)?, &io::pipe(&rt)?)
}

fn follow_lines(rt: &HostRuntime, edge: &mut Edge, pipe: &Pipe) -> io::Result<()> {
    for line in rt.lines(rt.alloc()) {
        follow(rt, edge, pipe, line?.as_str())?;
    }
    Ok(())
}

// Follows a line, and writes it with its answer.
fn follow(rt: &HostRuntime, edge: &mut Edge, pipe: &Pipe, line: &str) -> io::Result<()> {
    let text = if line.starts_with('#') {
        format!(in rt.alloc(); "{line}\n")?
    } else {
        let answer = answer(rt, edge, pipe, line)?;
        format!(in rt.alloc(); "{line} -> {answer}\n")?
    };
    match write_whole(&mut edge.output, text.as_bytes()) {
        Ok(()) => Ok(()),
        Err(_) => Err(io::Error::from(io::ErrorKind::WriteZero)),
    }
}

// Returns the answer to a row.
fn answer(rt: &HostRuntime, edge: &mut Edge, pipe: &Pipe, row: &str) -> io::Result<String> {
    let alloc = rt.alloc();
    let words: Vec<&str> = row.split('|').collect(alloc)?;
    let answer = match words.as_slice() {
        ["make", rest @ ..] => return made(rt, pipe, rest),
        ["folder", rest @ ..] => read(&mut edge.folder, alloc, rest),
        ["odd names", rest @ ..] => read(&mut edge.odd, alloc, rest),
        ["fickle", "resolve", name] => resolved(alloc, name),
        ["output", "put", text] => put(&mut edge.output, alloc, text),
        _ => String::from_str(alloc, "no row"),
    };
    Ok(answer?)
}
