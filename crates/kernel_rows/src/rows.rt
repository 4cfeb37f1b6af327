//! What rows have put together, and the steps of rows.
use crate::alike::{PairTexts, pair_line};
use crate::mounts;
use asked_service::MountTable;
use row_tools::{Follow, Shown, said, words};
use std::alloc::{AllocError, Global};
use std::io;

/// A table of mounts, and the texts of a pair of sites.
#[derive(Drop)]
pub struct Rows {
    table: MountTable,
    texts: Texts,
}

/// The texts of calls.txt and of both sites, and one that no row has taken yet.
#[derive(Drop)]
struct Texts {
    held: String,
    calls: String,
    site: String,
    other: String,
}

impl Rows {
    /// The host alone, and no texts.
    pub fn new(alloc: Global) -> Result<Self, AllocError> {
        Ok(Rows {
            table: MountTable::new(alloc)?,
            texts: Texts::new(alloc),
        })
    }
}

impl Texts {
    fn new(alloc: Global) -> Self {
        Texts {
            held: String::new(alloc),
            calls: String::new(alloc),
            site: String::new(alloc),
            other: String::new(alloc),
        }
    }

    // Adds a line to the held text.
    fn hold(&mut self, line: &str) -> Result<(), AllocError> {
        self.held.push_str(line)?;
        self.held.push('\n')
    }

    // Returns the answer to a row on the texts.
    fn answer(&mut self, alloc: Global, row: &[&str]) -> Result<String, AllocError> {
        match row {
            ["calls"] => {
                self.calls = self.taken(alloc);
                said(alloc, "held")
            }
            ["site"] => {
                self.site = self.taken(alloc);
                said(alloc, "held")
            }
            ["other"] => self.take_other(alloc),
            ["pair", folder, lines, calls @ ..] => self.pair(alloc, folder, lines, calls),
            _ => said(alloc, "no row"),
        }
    }

    // Takes the held text, and leaves an empty one.
    fn taken(&mut self, alloc: Global) -> String {
        std::mem::replace(&mut self.held, String::new(alloc))
    }

    // Takes the held text as more rows of the site, which make the other site.
    fn take_other(&mut self, alloc: Global) -> Result<String, AllocError> {
        self.other.clear();
        self.other.push_str(self.site.as_str())?;
        self.other.push_str(self.held.as_str())?;
        self.held.clear();
        said(alloc, "held")
    }

    fn pair(
        &self,
        alloc: Global,
        folder: &str,
        lines: &str,
        calls: &[&str],
    ) -> Result<String, AllocError> {
        let script = calls.join(alloc, "\n")?;
        let texts = PairTexts {
            calls: self.calls.as_str(),
            site: self.site.as_str(),
            other: self.other.as_str(),
            lines,
            folder,
            script: script.as_str(),
        };
        pair_line(alloc, &texts)
    }
}

impl Follow for Rows {
    fn follow(&mut self, alloc: Global, row: &str) -> io::Result<Shown> {
        if let Some(line) = row.strip_prefix("  ") {
            self.texts.hold(line)?;
            return Ok(Shown::Nothing);
        }
        let words = words(alloc, row)?;
        let answer = match words.as_slice() {
            ["mounts", rest @ ..] => mounts::answer(alloc, &mut self.table, rest),
            row => self.texts.answer(alloc, row),
        };
        Ok(Shown::Answer(answer?))
    }
}
