//! Implements a shelf in memory. Its calls with given numbers fail.
//!
//! Its own files alone agree with it. It numbers its calls of `read` and `list` together, from 1.
ghost use Rattle.std.specs.Prelude.{◌≡◌, ◌≤◌, ◌↔◌, map, IfOk, IsTrue, IsErrOf, vec_len, string_bytes};
ghost use Rattle.std.specs.Option.{option_map};
ghost use Rattle.host_io.specs.declared.reading.ShelfError.TheVariants.{Failed};
ghost use Rattle.host_io.specs.Agreeing.{ForFiles};
ghost use Rattle.host_io.specs.Calls.{FileAt, NamesIn, call_of};
ghost use Rattle.host_io.specs.Causes.{StaysUnless};
ghost use Rattle.host_io.specs.Files.{is_file_map, is_new_path, behind, bytes_at, name_in, names_in};
ghost use Rattle.host_io.specs.MemoryFiles.{AgreesMemory, AsksMemory, file_of};
ghost use Rattle.host_io.specs.Reading.{Reads, Lists, HasCause};
ghost use Rattle.host_io.specs.Turns.{fails_now, after_turn};

use crate::reading::{Shelf, ShelfError};
use crate::turns::Turns;
use std::alloc::{AllocError, Global};
use std::marker::Model;

/// Files in memory, as pairs of a path and its bytes.
#[derive(Drop)]
pub struct MemShelf {
    files: Vec<(String, Vec<u8>)>,
    turns: Turns,
}

impl Model for MemShelf {
    ghost use Rattle.std.specs.Prelude.{map, IsTrue};
    ghost use Rattle.host_io.specs.Files.{is_file_map};
    ghost use Rattle.host_io.specs.MemoryFiles.{MemFiles, file_of};

    ghost Value = { MemFiles };

    ghost view = { λ s. record { files = map file_of s.files.items; turns = s.turns } };

    ghost invariant = { λ s. IsTrue (is_file_map (map file_of s.files.items)) };
}

/// Returns whether a shelf can have these files: no path begins with a slash or occurs twice.
pub fn are_files(files: &[(String, Vec<u8>)]) -> bool
    ensures make_a_map { result ≡ is_file_map (map file_of files.now) }
{
    match files {
        [] => true,
        [first, rest @ ..] => is_path(first.0.as_str(), rest) && are_files(rest),
    }
}

// Returns whether the path has no slash at its front and none of these files has it.
fn is_path(path: &str, others: &[(String, Vec<u8>)]) -> bool
    ensures { result ≡ is_new_path path.now (map file_of others.now) }
{
    !path.as_bytes().starts_with(b"/") && find_file(others, path).is_none()
}

impl MemShelf {
    /// Makes a shelf with these files. Its calls with the numbers in `failing` fail. `are_files` tests the condition.
    pub fn new(files: Vec<(String, Vec<u8>)>, failing: Vec<u64>) -> Self
        requires { IsTrue (is_file_map (map file_of files.items)) }
        ensures starts { result ≡ record { files = map file_of files.items; turns = record { failing = failing.items; made = 0; faults = 0 } } }
    {
        MemShelf {
            files,
            turns: Turns::new(failing),
        }
    }
}

// Returns the bytes of the file at the path.
fn find_file<'a>(files: &'a [(String, Vec<u8>)], path: &str) -> Option<&'a Vec<u8>>
    ensures { option_map (λ v. v.now.items) result ≡ bytes_at (map file_of files.now) path.now }
{
    for file in files {
        if file.0.as_str() == path {
            return Some(&file.1);
        }
    }
    None
}

// Returns the text after this front, if the text begins with it.
fn text_behind<'a>(front: &str, text: &'a str) -> Option<&'a str>
    ensures { option_map (λ rest. rest.now) result ≡ behind front.now text.now }
{
    text.strip_prefix(front)
}

// Returns the name of a path that lies directly in the folder.
fn name_of<'a>(folder: &str, path: &'a str) -> Option<&'a str>
    ensures { option_map (λ name. name.now) result ≡ name_in folder.now path.now }
{
    let name = text_behind("/", text_behind(folder, path)?)?;
    if name.is_empty() || name.as_bytes().contains(&b'/') {
        None
    } else {
        Some(name)
    }
}

// Returns the names of the files directly in the folder.
fn names_of(
    alloc: Global,
    files: &[(String, Vec<u8>)],
    folder: &str,
) -> Result<Vec<String>, AllocError>
    ensures { IfOk result (λ names. map string_bytes names.items ≡ names_in (map file_of files.now) folder.now) }
{
    let mut names = Vec::new(alloc);
    for file in files {
        if let Some(name) = name_of(folder, file.0.as_str()) {
            names.push(String::from_str(alloc, name)?)?;
        }
    }
    Ok(names)
}

impl Shelf for MemShelf {
    ghost use Rattle.host_io.specs.MemoryFiles.{AgreesMemory, AsksMemory};

    ghost agrees = { AgreesMemory };

    ghost faults = { λ shelf. shelf.turns.faults };

    ghost asks = { AsksMemory };

    ghost agrees_with_maps = { λ shelf files agree. agree.is_a_map };

    fn read(&mut self, alloc: Global, path: &str, limit: u64) -> Result<Vec<u8>, ShelfError>
        ensures answers_by_the_files { ForFiles (AgreesMemory self.new) (λ files. Reads files path.now limit result) }
        ensures asks_for_it { AsksMemory self.old (call_of (FileAt path.now limit) result) self.new }
        ensures within_limit { IfOk result (λ bytes. vec_len bytes ≤ limit) }
        ensures answers_stay { ForFiles (AgreesMemory self.new) (AgreesMemory self.old) }
        ensures nothing_else_counts { ForFiles (AgreesMemory self.old) (λ files. Reads files path.now limit result → AgreesMemory self.new files) }
        ensures fault_rose { HasCause self.old.turns.faults self.new.turns.faults result }
        ensures no_other_fault { StaysUnless Failed self.old.turns.faults self.new.turns.faults result }
        ensures fails_as_told { IsErrOf result Failed ↔ IsTrue (fails_now self.old.turns) }
        ensures counts_the_call { self.new ≡ record self.old { turns = after_turn self.old.turns } }
    {
        if self.turns.next_fails() {
            return Err(ShelfError::Failed);
        }
        match find_file(&self.files, path) {
            None => Err(ShelfError::Missing),
            Some(bytes) if bytes.len() as u64 > limit => Err(ShelfError::TooLarge),
            Some(bytes) => bytes.to_vec(alloc).or(Err(ShelfError::Memory)),
        }
    }

    fn list(&mut self, alloc: Global, dir: &str) -> Result<Vec<String>, ShelfError>
        ensures answers_by_the_files { ForFiles (AgreesMemory self.new) (λ files. Lists files dir.now result) }
        ensures asks_for_it { AsksMemory self.old (call_of (NamesIn dir.now) result) self.new }
        ensures within_limit { IfOk result (λ names. vec_len names ≤ 4096) }
        ensures answers_stay { ForFiles (AgreesMemory self.new) (AgreesMemory self.old) }
        ensures nothing_else_counts { ForFiles (AgreesMemory self.old) (λ files. Lists files dir.now result → AgreesMemory self.new files) }
        ensures fault_rose { HasCause self.old.turns.faults self.new.turns.faults result }
        ensures no_other_fault { StaysUnless Failed self.old.turns.faults self.new.turns.faults result }
        ensures fails_as_told { IsErrOf result Failed ↔ IsTrue (fails_now self.old.turns) }
        ensures counts_the_call { self.new ≡ record self.old { turns = after_turn self.old.turns } }
    {
        if self.turns.next_fails() {
            return Err(ShelfError::Failed);
        }
        let Ok(names) = names_of(alloc, &self.files, dir) else {
            return Err(ShelfError::Memory);
        };
        if names.is_empty() {
            return Err(ShelfError::Missing);
        }
        if names.len() > 4096 {
            return Err(ShelfError::TooLarge);
        }
        Ok(names)
    }
}
