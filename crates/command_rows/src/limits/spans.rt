//! Joins neighbouring numbers with the same result.
use std::alloc::{AllocError, Global};

/// Lines of spans, and the span that is not ended yet.
#[derive(Drop)]
pub struct Spans {
    text: String,
    answer: String,
    first: u64,
    last: u64,
}

impl Spans {
    /// No spans.
    pub fn new(alloc: Global) -> Self {
        Spans {
            text: String::new(alloc),
            answer: String::new(alloc),
            first: 0,
            last: 0,
        }
    }

    /// Adds the result of the next number.
    pub fn add(&mut self, alloc: Global, number: u64, answer: &str) -> Result<(), AllocError> {
        if self.answer.as_str() != answer {
            self.end(alloc)?;
            self.first = number;
            self.answer.clear();
            self.answer.push_str(answer)?;
        }
        self.last = number;
        Ok(())
    }

    // Ends the span; none is there before the first number.
    fn end(&mut self, alloc: Global) -> Result<(), AllocError> {
        if self.answer.is_empty() {
            return Ok(());
        }
        if !self.text.is_empty() {
            self.text.push('\n')?;
        }
        let numbers = match (self.first, self.last) {
            (first, last) if first == last => format!(in alloc; "  {first}: "),
            (first, last) => format!(in alloc; "  {first} to {last}: "),
        }?;
        self.text.push_str(numbers.as_str())?;
        self.text.push_str(self.answer.as_str())
    }

    /// The lines of all spans.
    pub fn text(&mut self, alloc: Global) -> Result<String, AllocError> {
        self.end(alloc)?;
        self.answer.clear();
        self.text.clone()
    }
}
