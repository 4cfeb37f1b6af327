//! Replays the lists of calls below the open questions of a report.
use crate::rows::Rows;
use crate::runs::{Printed, run_over};
use crate::sought::push_line;
use std::alloc::{AllocError, Global};

/// The path of the script of a list.
const SCRIPT: &str = "list";

/// A report that is followed line by line: the last question with its list, and the lists before it.
#[derive(Drop)]
struct Lists<'a> {
    rows: &'a Rows,
    unit: &'a str,
    question: String,
    script: String,
    /// How many lists are done.
    done: u64,
    /// The replays of the others, below their questions.
    others: String,
}

impl<'a> Lists<'a> {
    // No question yet.
    fn new(alloc: Global, rows: &'a Rows) -> Self {
        let unit = match rows.words.first() {
            Some(word) => word.as_str(),
            None => "",
        };
        Lists {
            rows,
            unit,
            question: String::new(alloc),
            script: String::new(alloc),
            done: 0,
            others: String::new(alloc),
        }
    }

    fn follow(&mut self, alloc: Global, report: &str) -> Result<(), AllocError> {
        for line in report.lines() {
            self.step(alloc, line)?;
        }
        Ok(())
    }

    // Follows a line: a call of the list, or the next question.
    fn step(&mut self, alloc: Global, line: &str) -> Result<(), AllocError> {
        match line.strip_prefix("  ") {
            Some(call) => push_line(&mut self.script, "", call),
            None => {
                self.end_list(alloc)?;
                self.script.clear();
                self.question.clear();
                self.question.push_str(line)
            }
        }
    }

    // Replays the list of the question, if it has calls.
    fn end_list(&mut self, alloc: Global) -> Result<(), AllocError> {
        if self.script.is_empty() {
            return Ok(());
        }
        let replay = self.replayed(alloc)?;
        self.count(replay.text.as_str())
    }

    fn replayed(&self, alloc: Global) -> Result<Printed, AllocError> {
        let script = self.script.as_str();
        let files = self.rows.files.with(alloc, SCRIPT, script)?;
        let words = ["replay", self.unit, SCRIPT];
        run_over(alloc, files, &words, &self.rows.faults)
    }

    // Counts the list if each of its calls is done, and else keeps the replay.
    fn count(&mut self, replay: &str) -> Result<(), AllocError> {
        if are_done(replay, self.script.as_str().lines().count()) {
            self.done = self.done.saturating_add(1);
            return Ok(());
        }
        push_line(&mut self.others, "", self.question.as_str())?;
        self.others.push_str(replay)
    }

    // Returns how many lists are done, and the replays of the others.
    fn text(&self, alloc: Global) -> Result<String, AllocError> {
        let (unit, done) = (self.unit, self.done);
        match self.others.as_str().trim_end() {
            "" => format!(in alloc; "circle {unit}: {done} lists done"),
            others => format!(in alloc; "circle {unit}: {done} lists done, but not\n{others}"),
        }
    }
}

// Returns whether a replay has so many calls, and each of them is done.
fn are_done(replay: &str, count: usize) -> bool {
    count_with(replay, " -> ") == count && count_with(replay, " -> ok ") == count
}

fn count_with(replay: &str, part: &str) -> usize {
    replay.lines().filter(|line| line.contains(part)).count()
}

/// Returns the report on the unit of a row, list by list: which of them is not done when it is replayed, and how many
/// are.
pub fn circle(alloc: Global, rows: &Rows) -> Result<String, AllocError> {
    let mut lists = Lists::new(alloc, rows);
    let words = ["judge", lists.unit];
    let report = run_over(alloc, rows.files.copied(alloc)?, &words, &rows.faults)?;
    lists.follow(alloc, report.text.as_str())?;
    lists.text(alloc)
}
