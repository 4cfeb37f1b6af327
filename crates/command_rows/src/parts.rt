//! The parts of the rows.
use crate::{limits, rows};
use row_tools::{Follow, Shown, part_of, said};
use std::alloc::{AllocError, Global};
use std::io;

/// The part that lines are in, and what the rows of each have put together.
#[derive(Drop)]
pub struct Parts {
    part: String,
    runs: rows::Rows,
    limits: limits::Rows,
}

impl Parts {
    /// No part yet.
    pub fn new(alloc: Global) -> Self {
        Parts {
            part: String::new(alloc),
            runs: rows::Rows::new(alloc),
            limits: limits::Rows::new(alloc),
        }
    }
}

impl Follow for Parts {
    fn follow(&mut self, alloc: Global, line: &str) -> io::Result<Shown> {
        if let Some(part) = part_of(line) {
            self.part = said(alloc, part)?;
            return Ok(Shown::Nothing);
        }
        match self.part.as_str() {
            "runs" => self.runs.follow(alloc, line),
            "limits" => self.limits.follow(alloc, line),
            _ => Ok(Shown::Answer(said(alloc, "no part")?)),
        }
    }
}
