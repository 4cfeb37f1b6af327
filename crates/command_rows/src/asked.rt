//! Asks printed filters: the text of `filter` is read back, program by program, and each is asked about the calls of
//! a row.
use crate::sought::push_line;
use row_tools::{bytes_of, number, number32};
use std::alloc::{AllocError, Global};
use top_call::{CallData, Program, bpf_code_run as run};

/// The architectures of x86-64 and of i386 (audit(7)).
const X86_64: u32 = 0xc000_003e;

const I386: u32 = 0x4000_0003;

/// The data of the call of these words: its number and the words of its arguments, `i386` before them for that architecture.
fn data_of(words: &str) -> CallData {
    let (arch, rest) = match words.strip_prefix("i386 ") {
        Some(rest) => (I386, rest),
        None => (X86_64, words),
    };
    let mut numbers = rest.split(' ');
    let nr = number32(numbers.next().unwrap_or("0"));
    let mut args = [0u64; 6];
    for at in 0..6 {
        args[at] = number(numbers.next().unwrap_or("0"));
    }
    CallData {
        nr,
        arch,
        ip: 0,
        args,
    }
}

/// A text of `filter` that is followed line by line: the filter whose program is read, and the calls that each is asked.
#[derive(Drop)]
struct Asking<'a> {
    asked: &'a [String],
    /// The name of the filter; none before the first one.
    name: String,
    /// Its instructions in hex.
    code: String,
    /// The answers so far.
    said: String,
}

impl<'a> Asking<'a> {
    // No filter yet.
    fn new(alloc: Global, asked: &'a [String]) -> Self {
        Asking {
            asked,
            name: String::new(alloc),
            code: String::new(alloc),
            said: String::new(alloc),
        }
    }

    fn follow(&mut self, alloc: Global, text: &str) -> Result<(), AllocError> {
        for line in text.lines() {
            self.step(alloc, line)?;
        }
        Ok(())
    }

    // Follows a line: the head of a filter, the line that counts them, or an instruction.
    fn step(&mut self, alloc: Global, line: &str) -> Result<(), AllocError> {
        match line.strip_prefix("filter") {
            Some(rest) => self.begin(alloc, line, head_of(rest)),
            None => {
                self.code.push_str(line)?;
                self.code.push(' ')
            }
        }
    }

    // Asks the filter that ends here, and begins the one of this name. A line without a name stays.
    fn begin(&mut self, alloc: Global, line: &str, name: &str) -> Result<(), AllocError> {
        self.end(alloc)?;
        self.code.clear();
        self.name.clear();
        match name {
            "" => push_line(&mut self.said, "", line),
            name => self.name.push_str(name),
        }
    }

    // Asks the filter, if there is one.
    fn end(&mut self, alloc: Global) -> Result<(), AllocError> {
        if self.name.is_empty() {
            return Ok(());
        }
        match &program_of(alloc, self.code.as_str()) {
            Some(program) => self.ask(alloc, program),
            None => push_line(&mut self.said, self.name.as_str(), " is no program"),
        }
    }

    // Asks a program about each call, a line each.
    fn ask(&mut self, alloc: Global, program: &Program) -> Result<(), AllocError> {
        let asked = self.asked;
        for words in asked {
            let answer = run(program, &data_of(words.as_str()));
            let line = format!(in alloc; "{}: {words} -> {answer}\n", self.name)?;
            self.said.push_str(line.as_str())?;
        }
        Ok(())
    }
}

// The program of these instructions in hex. None if it is refused.
fn program_of(alloc: Global, code: &str) -> Option<Program> {
    let bytes = bytes_of(alloc, code).ok()?;
    Program::read(alloc, bytes.as_slice()).ok()
}

/// Returns the text of `filter` with the answers of each filter to the calls in the place of its program.
pub fn answers(alloc: Global, text: &str, asked: &[String]) -> Result<String, AllocError> {
    let mut asking = Asking::new(alloc, asked);
    asking.follow(alloc, text)?;
    asking.said.clone()
}

// The name of the filter that begins with this line; none for the line that counts them.
fn head_of(rest: &str) -> &str {
    match rest.strip_prefix(' ') {
        Some(name) => name.split(' ').next().unwrap_or(""),
        None => "",
    }
}
