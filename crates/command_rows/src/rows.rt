//! What the next run is over.
use crate::circle::circle;
use crate::files::Files;
use crate::runs::Faults;
use crate::whole::run_row;
use row_tools::{Follow, Shown, number, said};
use std::alloc::{AllocError, Global};
use std::io;

/// How much a sink takes at once where no row says so.
const TAKE: u64 = 7;

/// What the next run is over.
#[derive(Drop)]
pub struct Rows {
    pub files: Files,
    /// The words after the program's name.
    pub words: Vec<String>,
    /// What fails, and how much the sink takes at once.
    pub faults: Faults,
    /// The calls that the printed filters are asked of.
    pub asked: Vec<String>,
    /// The lines that are sought in what is printed.
    pub sought: Vec<String>,
}

impl Rows {
    /// No files and no words.
    pub fn new(alloc: Global) -> Self {
        Rows {
            files: Files::new(alloc),
            words: Vec::new(alloc),
            faults: Faults::none(alloc, TAKE),
            asked: Vec::new(alloc),
            sought: Vec::new(alloc),
        }
    }

    // The next row has the same files, and no words and faults yet.
    fn begin_row(&mut self, alloc: Global) {
        self.words = Vec::new(alloc);
        self.faults = Faults::none(alloc, TAKE);
        self.asked = Vec::new(alloc);
        self.sought = Vec::new(alloc);
    }

    // Follows a line that is no run.
    fn step(&mut self, alloc: Global, line: &str) -> Result<(), AllocError> {
        match line.split_once(' ') {
            Some(("word", rest)) => push_text(alloc, &mut self.words, rest),
            Some(("ask", rest)) => push_text(alloc, &mut self.asked, rest),
            Some(("seek", rest)) => push_text(alloc, &mut self.sought, rest),
            Some(("take", rest)) => {
                self.faults.take = number(rest);
                Ok(())
            }
            Some(("fail-read", rest)) => push_number(&mut self.faults.reads, rest),
            Some(("fail-put", rest)) => push_number(&mut self.faults.puts, rest),
            Some(("wish", answer)) => Ok(self.faults.wishes.push(answer == "yes")?),
            _ => self.files.follow(alloc, line),
        }
    }
}

fn push_text(alloc: Global, list: &mut Vec<String>, text: &str) -> Result<(), AllocError> {
    list.push(said(alloc, text)?)?;
    Ok(())
}

fn push_number(list: &mut Vec<u64>, word: &str) -> Result<(), AllocError> {
    list.push(number(word))?;
    Ok(())
}

impl Follow for Rows {
    fn follow(&mut self, alloc: Global, line: &str) -> io::Result<Shown> {
        let said = match line {
            "run" => run_row(alloc, self)?,
            "circle" => circle(alloc, self)?,
            line => {
                self.step(alloc, line)?;
                return Ok(Shown::Nothing);
            }
        };
        self.begin_row(alloc);
        Ok(Shown::Text(said))
    }
}
