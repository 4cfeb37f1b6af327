//! Reads the folder that the program runs in, and writes its standard output: the trusted edge.
//!
//! The folder remembers its answers, for proofs alone, and the output shows nothing. A missing file, exhausted memory and a signal in the middle of a write are no faults; every
//! other error of the system is one.
ghost use Rattle.std.specs.Prelude.{◌≡◌, ◌≢◌, ◌≤◌, [], ◌∷◌, None, Err, IfOk, IsTrue, length, vec_len};
ghost use Rattle.host_io.specs.declared.reading.ShelfError.TheVariants.{Missing, Failed};
ghost use Rattle.host_io.specs.Agreeing.{ForFiles};
ghost use Rattle.host_io.specs.Calls.{AsksOutside, FileAt, NamesIn, call_of};
ghost use Rattle.host_io.specs.Causes.{Rose, StaysUnless};
ghost use Rattle.host_io.specs.Files.{begins_with_slash};
ghost use Rattle.host_io.specs.Heard.{AgreesWith, file_answer, folder_answer};
ghost use Rattle.host_io.specs.Puts.{PutsOutside};
ghost use Rattle.host_io.specs.Reading.{Reads, Lists, HasCause};

use crate::heard::{Heard, Said};
use crate::reading::{Shelf, ShelfError};
use crate::writing::{Sink, SinkError};
use std::alloc::Global;
use std::fs::Metadata;
use std::io::{ErrorKind, Read, Write};
use std::os::unix::fs::{FileTypeExt, MetadataExt};
use std::path::AsPath;
use std::rt::Files;
use std::{fs, io};

/// The most names that a listing returns.
const MOST_NAMES: usize = 4096;

/// The device number of /dev/null, null(4).
const NULL_DEVICE: u64 = 0x103;

/// Reads files below the current folder.
///
/// A file is a regular file or the null device, or a link that leads to one. It opens no other file, such as a pipe, a socket
/// or a link that leads nowhere.
#[derive(Drop)]
pub struct DirShelf<R: Files + AllocGlobal + Clone + Drop> {
    rt: R,
    faults: u64,
    heard: Heard,
}

impl<R: Files + AllocGlobal + Clone + Drop> DirShelf<R> {
    /// Makes a shelf over the current folder, with no fault and no answer so far.
    pub fn new(rt: R) -> Self
        ensures no_fault_so_far { result.faults ≡ 0 }
        ensures no_answer_so_far { result.heard.answers ≡ [] }
    {
        DirShelf {
            rt,
            faults: 0,
            heard: Heard::new(),
        }
    }

    // Returns the answer for an error of the system: out of memory, or a fault, which it counts.
    fn answer(&mut self, kind: ErrorKind) -> ShelfError
        ensures later { self.old.faults ≤ self.new.faults }
        ensures failed { result ≡ Failed → Rose self.old.faults self.new.faults }
        ensures no_other_fault { result ≢ Failed → self.new.faults ≡ self.old.faults }
        ensures no_answer { self.new.heard.answers ≡ self.old.heard.answers }
    {
        if kind == ErrorKind::OutOfMemory {
            return ShelfError::Memory;
        }
        self.faults = self.faults.saturating_add(1);
        ShelfError::Failed
    }

    // Reads the file at the path, which may have at most `limit` bytes.
    fn read_outside(&mut self, alloc: Global, path: &str, limit: u64) -> Result<Vec<u8>, ShelfError>
        ensures within_limit { IfOk result (λ bytes. vec_len bytes ≤ limit) }
        ensures fault_rose { HasCause self.old.faults self.new.faults result }
        ensures no_other_fault { StaysUnless Failed self.old.faults self.new.faults result }
        ensures slash_is_missing { IsTrue (begins_with_slash path.now) → result ≡ Err Missing }
        ensures no_answer { self.new.heard.answers ≡ self.old.heard.answers }
    {
        if path.starts_with('/') {
            return Err(ShelfError::Missing);
        }
        match read_file(&self.rt, alloc, path, limit.saturating_add(1)) {
            Ok(None) => Err(ShelfError::Missing),
            Ok(Some(bytes)) if bytes.len() as u64 > limit => Err(ShelfError::TooLarge),
            Ok(Some(bytes)) => Ok(bytes),
            Err(error) => Err(self.answer(error.kind())),
        }
    }

    // Returns the names of the files directly in the folder.
    fn list_outside(&mut self, alloc: Global, dir: &str) -> Result<Vec<String>, ShelfError>
        ensures within_limit { IfOk result (λ names. vec_len names ≤ 4096) }
        ensures fault_rose { HasCause self.old.faults self.new.faults result }
        ensures no_other_fault { StaysUnless Failed self.old.faults self.new.faults result }
        ensures slash_is_missing { IsTrue (begins_with_slash dir.now) → result ≡ Err Missing }
        ensures no_answer { self.new.heard.answers ≡ self.old.heard.answers }
    {
        if dir.starts_with('/') {
            return Err(ShelfError::Missing);
        }
        match read_names(&self.rt, alloc, dir, MOST_NAMES + 1) {
            Ok(names) if names.is_empty() => Err(ShelfError::Missing),
            Ok(names) if names.len() > MOST_NAMES => Err(ShelfError::TooLarge),
            Ok(names) => Ok(names),
            Err(error) => Err(self.answer(error.kind())),
        }
    }
}

// Returns the entry, or nothing if nothing can be there. The system says so for a missing entry, a part of the path that is no
// folder, a name that is too long, and links in a circle.
fn if_there<T: Drop>(found: io::Result<T>) -> io::Result<Option<T>> {
    match found {
        Ok(found) => Ok(Some(found)),
        Err(error) => match error.kind() {
            ErrorKind::NotFound
            | ErrorKind::NotADirectory
            | ErrorKind::InvalidFilename
            | ErrorKind::FilesystemLoop => Ok(None),
            _ => Err(error),
        },
    }
}

// Returns whether this is a regular file or the null device.
fn holds_bytes(found: &Metadata) -> bool {
    found.is_file() || (found.file_type().is_char_device() && found.rdev() == NULL_DEVICE)
}

// Returns whether the path has a file, or a link that leads to one.
fn is_file<R: Files, P: AsPath>(rt: &R, path: P) -> io::Result<bool> {
    match if_there(fs::metadata(rt, path))? {
        Some(found) => Ok(holds_bytes(&found)),
        None => Ok(false),
    }
}

// Reads at most `limit` bytes of a file.
fn read_file<R: Files>(
    rt: &R,
    alloc: Global,
    path: &str,
    limit: u64,
) -> io::Result<Option<Vec<u8>>> {
    if !is_file(rt, path)? {
        return Ok(None);
    }
    let Some(file) = if_there(fs::open(rt, path))? else {
        return Ok(None);
    };
    let mut bytes = Vec::new(alloc);
    file.take(limit).read_to_end(&mut bytes)?;
    Ok(Some(bytes))
}

// Reads at most `limit` names of files of a folder. A missing folder has no names.
fn read_names<R: Files + AllocGlobal + Clone + Drop>(
    rt: &R,
    alloc: Global,
    dir: &str,
    limit: usize,
) -> io::Result<Vec<String>> {
    let mut names = Vec::new(alloc);
    let Some(entries) = if_there(fs::read_dir(rt, dir))? else {
        return Ok(names);
    };
    for entry in entries {
        let entry = entry?;
        if names.len() < limit && is_file(rt, entry.path())? {
            names.push(String::from_str(alloc, entry.file_name())?)?;
        }
    }
    Ok(names)
}

impl<R: Files + AllocGlobal + Clone + Drop> Shelf for DirShelf<R> {
    ghost agrees = { λ shelf. AgreesWith shelf.heard.answers };

    ghost faults = { λ shelf. shelf.faults };

    ghost asks = { λ before call now. AsksOutside before.faults call now.faults };

    ghost agrees_with_maps = { λ shelf files agree. agree.0 };

    fn read(&mut self, alloc: Global, path: &str, limit: u64) -> Result<Vec<u8>, ShelfError>
        ensures answers_by_the_files { ForFiles (AgreesWith self.new.heard.answers) (λ files. Reads files path.now limit result) }
        ensures asks_for_it { AsksOutside self.old.faults (call_of (FileAt path.now limit) result) self.new.faults }
        ensures within_limit { IfOk result (λ bytes. vec_len bytes ≤ limit) }
        ensures answers_stay { ForFiles (AgreesWith self.new.heard.answers) (AgreesWith self.old.heard.answers) }
        ensures nothing_else_counts { ForFiles (AgreesWith self.old.heard.answers) (λ files. Reads files path.now limit result → AgreesWith self.new.heard.answers files) }
        ensures fault_rose { HasCause self.old.faults self.new.faults result }
        ensures no_other_fault { StaysUnless Failed self.old.faults self.new.faults result }
        ensures slash_is_missing { IsTrue (begins_with_slash path.now) → result ≡ Err Missing }
        ensures remembers_the_answer { self.new.heard.answers ≡ file_answer path.now limit result ∷ self.old.heard.answers }
    {
        let result = self.read_outside(alloc, path, limit);
        self.heard = self.heard.and(&Said::File(path, limit, &result));
        result
    }

    fn list(&mut self, alloc: Global, dir: &str) -> Result<Vec<String>, ShelfError>
        ensures answers_by_the_files { ForFiles (AgreesWith self.new.heard.answers) (λ files. Lists files dir.now result) }
        ensures asks_for_it { AsksOutside self.old.faults (call_of (NamesIn dir.now) result) self.new.faults }
        ensures within_limit { IfOk result (λ names. vec_len names ≤ 4096) }
        ensures answers_stay { ForFiles (AgreesWith self.new.heard.answers) (AgreesWith self.old.heard.answers) }
        ensures nothing_else_counts { ForFiles (AgreesWith self.old.heard.answers) (λ files. Lists files dir.now result → AgreesWith self.new.heard.answers files) }
        ensures fault_rose { HasCause self.old.faults self.new.faults result }
        ensures no_other_fault { StaysUnless Failed self.old.faults self.new.faults result }
        ensures slash_is_missing { IsTrue (begins_with_slash dir.now) → result ≡ Err Missing }
        ensures remembers_the_answer { self.new.heard.answers ≡ folder_answer dir.now result ∷ self.old.heard.answers }
    {
        let result = self.list_outside(alloc, dir);
        self.heard = self.heard.and(&Said::Folder(dir, &result));
        result
    }
}

/// Writes to standard output.
#[derive(Drop)]
pub struct StdSink<R: Print + Clone + Drop> {
    rt: R,
    faults: u64,
}

impl<R: Print + Clone + Drop> StdSink<R> {
    /// Makes a sink over standard output, with no fault so far.
    pub fn new(rt: R) -> Self
        ensures no_fault_so_far { result.faults ≡ 0 }
    {
        StdSink { rt, faults: 0 }
    }
}

// Writes once, and again if a signal interrupted the call before it took a byte (write(2), EINTR).
fn write_some<R: Print>(rt: &R, piece: &[u8]) -> io::Result<usize>
    ensures takes_at_most_the_piece { IfOk result (λ count. count ≤ length piece.now) }
{
    for _ in 0..u64::MAX {
        match io::writer(rt).write(piece) {
            Err(error) if error.kind() == ErrorKind::Interrupted => {}
            written => return written,
        }
    }
    Err(io::Error::from(ErrorKind::Interrupted))
}

impl<R: Print + Clone + Drop> Sink for StdSink<R> {
    ghost taken = { λ _. None };

    ghost faults = { λ sink. sink.faults };

    ghost puts = { λ before put now. PutsOutside before.faults put now.faults };

    fn put(&mut self, piece: &[u8]) -> Result<usize, SinkError> {
        match write_some(&self.rt, piece) {
            Ok(count) if count > 0 || piece.is_empty() => Ok(count),
            _ => {
                self.faults = self.faults.saturating_add(1);
                Err(SinkError::Failed)
            }
        }
    }
}
