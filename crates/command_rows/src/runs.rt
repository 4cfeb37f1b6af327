//! Runs the program over files in memory, with faults or without.
use host_io::{MemShelf, MemSink, are_files};
use row_tools::said;
use std::alloc::{AllocError, Global};
use top_call::{
    CustomTest, Facts, Question, StoredWish, VerdictRow, Wish, ambient_count, run, writable_paths,
};

/// The faults of a run, the bytes that the sink takes at once, and the answers of wishes.
#[derive(Drop)]
pub struct Faults {
    /// The calls of the shelf that fail, from 1.
    pub reads: Vec<u64>,
    /// The puts to the sink that fail, from 1.
    pub puts: Vec<u64>,
    /// How many bytes a put takes at most.
    pub take: u64,
    /// The answers of the wishes for the run. If the list is empty, the run has the program's own wish.
    pub wishes: Vec<bool>,
}

impl Faults {
    /// Nothing fails, and a put takes at most so many bytes.
    pub fn none(alloc: Global, take: u64) -> Self {
        Faults {
            reads: Vec::new(alloc),
            puts: Vec::new(alloc),
            take,
            wishes: Vec::new(alloc),
        }
    }
}

/// The output of a run, and its status.
#[derive(Drop)]
pub struct Printed {
    pub code: u8,
    pub text: String,
}

impl Printed {
    fn new(alloc: Global, code: u8, bytes: &[u8]) -> Result<Self, AllocError> {
        let text = said(alloc, str::from_utf8(bytes).unwrap_or("no text\n"))?;
        Ok(Printed { code, text })
    }
}

/// Runs these words over the files.
pub fn run_over(
    alloc: Global,
    files: Vec<(String, Vec<u8>)>,
    words: &[&str],
    faults: &Faults,
) -> Result<Printed, AllocError> {
    if !are_files(files.as_slice()) {
        return Printed::new(alloc, 0, b"no row\n");
    }
    let failing = faults.reads.clone()?;
    run_on(alloc, words, faults, &mut MemShelf::new(files, failing))
}

// Runs these words over a shelf.
fn run_on(
    alloc: Global,
    words: &[&str],
    faults: &Faults,
    shelf: &mut MemShelf,
) -> Result<Printed, AllocError> {
    if faults.take == 0 {
        return Printed::new(alloc, 0, b"no row\n");
    }
    let mut sink = MemSink::new(alloc, faults.take, faults.puts.clone()?);
    let code = run_words(alloc, words, &faults.wishes, shelf, &mut sink)?;
    Printed::new(alloc, code, sink.taken())
}

// Returns whether some file can be executed by the verdicts.
fn can_execute(rows: &[VerdictRow]) -> bool {
    for row in rows {
        if let Question::Path(Wish::Exec, _) = row.question {
            if row.is_open {
                return true;
            }
        }
    }
    false
}

// The status of a run of these words, with the two stored tests of the program, and with wishes that answer like this. Without
// answers the run has the program's own wish. The closures are passed on where they are made.
fn run_words(
    alloc: Global,
    words: &[&str],
    answers: &[bool],
    shelf: &mut MemShelf,
    sink: &mut MemSink,
) -> Result<u8, AllocError> {
    let ambient = Box::new(alloc, |facts: &Facts| ambient_count(facts))?;
    let paths = Box::new(alloc, |facts: &Facts| writable_paths(facts))?;
    let tests = vec![in alloc;
        CustomTest::new(said(alloc, "AmbientCount")?, 41, ambient),
        CustomTest::new(said(alloc, "WritablePaths")?, 128, paths),
    ]?;
    let mut wishes = Vec::new(alloc);
    if answers.is_empty() {
        let executes = Box::new(alloc, |rows: &[VerdictRow]| can_execute(rows))?;
        wishes.push(StoredWish::new(said(alloc, "OpenExec")?, Vec::new(alloc), executes))?;
    }
    for answer in answers {
        let none = Vec::new(alloc);
        let wish = if *answer {
            StoredWish::new(
                said(alloc, "Granted")?,
                none,
                Box::new(alloc, |_rows: &[VerdictRow]| true)?,
            )
        } else {
            StoredWish::new(
                said(alloc, "Refused")?,
                none,
                Box::new(alloc, |_rows: &[VerdictRow]| false)?,
            )
        };
        wishes.push(wish)?;
    }
    Ok(run(alloc, words, shelf, sink, tests, wishes).code)
}
