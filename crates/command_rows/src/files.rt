//! Makes files for rows, from a short notation.
use row_tools::number;
use std::alloc::{AllocError, Global};

/// Paths with the bytes of their files, the newest last.
#[derive(Drop)]
pub struct Files {
    list: Vec<(String, Vec<u8>)>,
}

impl Files {
    /// No files.
    pub fn new(alloc: Global) -> Self {
        Files {
            list: Vec::new(alloc),
        }
    }

    /// Copies of the files.
    pub fn copied(&self, alloc: Global) -> Result<Vec<(String, Vec<u8>)>, AllocError> {
        self.cut(alloc, "", 0)
    }

    /// Copies the files. The copy of the file with this path has only its first `count` bytes.
    pub fn cut(
        &self,
        alloc: Global,
        path: &str,
        count: usize,
    ) -> Result<Vec<(String, Vec<u8>)>, AllocError> {
        let mut files = Vec::new(alloc);
        for file in &self.list {
            let whole = file.1.as_slice();
            let bytes = if file.0.as_str() == path {
                front(whole, count)
            } else {
                whole
            };
            files.push(made(alloc, file.0.as_str(), bytes)?)?;
        }
        Ok(files)
    }

    /// Copies the files, and adds one with this path and text.
    pub fn with(
        &self,
        alloc: Global,
        path: &str,
        text: &str,
    ) -> Result<Vec<(String, Vec<u8>)>, AllocError> {
        let mut files = self.copied(alloc)?;
        files.push(made(alloc, path, text.as_bytes())?)?;
        Ok(files)
    }

    /// Returns the number of bytes of the file of this path.
    pub fn length(&self, path: &str) -> usize {
        for file in &self.list {
            if file.0.as_str() == path {
                return file.1.len();
            }
        }
        0
    }

    /// Follows a line. Any line but these changes nothing:
    /// - `file PATH` begins an empty file, and `more PATH` continues an existing file.
    /// - `|TEXT` adds a line to the newest file, `>TEXT` a text, `many N TEXT` a text so many times, `nul` a zero byte, and
    ///   `no-text` a byte that is no text.
    /// - `times N TEXT` adds so many lines, and replaces each `#` by the number of the line, from 1.
    /// - `comment N` and `blanks N` fill the file with `#` and with spaces until it has N bytes.
    /// - `files N PATH TEXT` makes so many files of one line, and replaces each `#` in their paths by the number of
    ///   the file.
    /// - `no-file PATH` removes a file, and `no-files FRONT` those whose paths begin so.
    pub fn follow(&mut self, alloc: Global, line: &str) -> Result<(), AllocError> {
        if let Some(text) = line.strip_prefix('|') {
            return self.add_line(text);
        }
        if let Some(text) = line.strip_prefix('>') {
            return self.add(text.as_bytes());
        }
        match line.split_once(' ') {
            Some((step, rest)) => self.follow_step(alloc, step, rest),
            None if line == "nul" => self.add(b"\0"),
            None if line == "no-text" => self.add(b"\xff"),
            None => Ok(()),
        }
    }

    fn follow_step(&mut self, alloc: Global, step: &str, rest: &str) -> Result<(), AllocError> {
        match step {
            "file" => self.begin(alloc, rest),
            "more" => self.go_on(rest),
            "many" => self.add_many(rest),
            "times" => self.add_lines(alloc, rest),
            "comment" => self.fill(number(rest), b'#'),
            "blanks" => self.fill(number(rest), b' '),
            "files" => self.add_files(alloc, rest),
            "no-file" => {
                self.remove(rest);
                Ok(())
            }
            "no-files" => {
                self.list.retain(|file| !file.0.as_str().starts_with(rest));
                Ok(())
            }
            _ => Ok(()),
        }
    }

    // A new file, which is empty, in the place of the one of this path.
    fn begin(&mut self, alloc: Global, path: &str) -> Result<(), AllocError> {
        self.remove(path);
        Ok(self.list.push(made(alloc, path, b"")?)?)
    }

    // Makes an existing file the newest, so that more lines extend it.
    fn go_on(&mut self, path: &str) -> Result<(), AllocError> {
        match self.remove(path) {
            Some(file) => Ok(self.list.push(file)?),
            None => Ok(()),
        }
    }

    // Takes the file of this path away.
    fn remove(&mut self, path: &str) -> Option<(String, Vec<u8>)> {
        for at in 0..self.list.len() {
            if self.list[at].0.as_str() == path {
                return Some(self.list.remove(at));
            }
        }
        None
    }

    // Adds bytes to the newest file.
    fn add(&mut self, bytes: &[u8]) -> Result<(), AllocError> {
        match self.list.last_mut() {
            Some(file) => file.1.extend_from_slice(bytes),
            None => Ok(()),
        }
    }

    fn add_line(&mut self, text: &str) -> Result<(), AllocError> {
        self.add(text.as_bytes())?;
        self.add(b"\n")
    }

    // A text so many times.
    fn add_many(&mut self, rest: &str) -> Result<(), AllocError> {
        if let Some((count, text)) = rest.split_once(' ') {
            for _ in 0..number(count) {
                self.add(text.as_bytes())?;
            }
        }
        Ok(())
    }

    // Fills the newest file until it has so many bytes.
    fn fill(&mut self, count: u64, byte: u8) -> Result<(), AllocError> {
        match self.list.last_mut() {
            Some(file) => fill_up(&mut file.1, count, byte),
            None => Ok(()),
        }
    }

    // So many lines, the number of each in the place of `#`.
    fn add_lines(&mut self, alloc: Global, rest: &str) -> Result<(), AllocError> {
        if let Some((count, text)) = rest.split_once(' ') {
            for at in 0..number(count) {
                self.add_line(numbered(alloc, text, at + 1)?.as_str())?;
            }
        }
        Ok(())
    }

    // So many files of one line, the number of each in the place of `#` in their paths.
    fn add_files(&mut self, alloc: Global, rest: &str) -> Result<(), AllocError> {
        if let Some((count, rest)) = rest.split_once(' ') {
            if let Some((path, text)) = rest.split_once(' ') {
                for at in 0..number(count) {
                    self.begin(alloc, numbered(alloc, path, at + 1)?.as_str())?;
                    self.add_line(text)?;
                }
            }
        }
        Ok(())
    }
}

// At most so many of the first bytes.
fn front(bytes: &[u8], count: usize) -> &[u8] {
    if count <= bytes.len() {
        &bytes[..count]
    } else {
        bytes
    }
}

fn fill_up(bytes: &mut Vec<u8>, count: u64, byte: u8) -> Result<(), AllocError> {
    for _ in bytes.len() as u64..count {
        bytes.push(byte)?;
    }
    Ok(())
}

// A file of these bytes.
fn made(alloc: Global, path: &str, bytes: &[u8]) -> Result<(String, Vec<u8>), AllocError> {
    Ok((String::from_str(alloc, path)?, bytes.to_vec(alloc)?))
}

// The text with a number in the place of each `#`.
fn numbered(alloc: Global, text: &str, number: u64) -> Result<String, AllocError> {
    let shown = number.to_string(alloc)?;
    text.replace(alloc, '#', shown.as_str())
}
