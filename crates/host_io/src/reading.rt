//! Defines the trait `Shelf`, which reads files, and its errors.
//!
//! Contracts describe a shelf by a count of faults, by its state after a call, and by the maps from paths to bytes that agree
//! with all answers so far.
ghost use Rattle.std.specs.Prelude.{ℕ, ◌≤◌, IfOk, IsTrue, vec_len};
ghost use Rattle.host_io.specs.Agreeing.{ForFiles};
ghost use Rattle.host_io.specs.declared.reading.ShelfError.TheVariants.{Failed};
ghost use Rattle.host_io.specs.Calls.{FileAt, NamesIn, ShelfCall, call_of};
ghost use Rattle.host_io.specs.Causes.{StaysUnless};
ghost use Rattle.host_io.specs.Files.{Files, is_file_map};
ghost use Rattle.host_io.specs.Reading.{Reads, Lists, HasCause};

use std::alloc::Global;
use thiserror::Error;

/// Why a file or a folder was not read.
#[derive(Clone, Copy, Debug, PartialEq, Eq, Error)]
pub enum ShelfError {
    /// No file has the path, or none lies directly in the folder.
    #[error("the file is missing")]
    Missing,
    /// The file has more bytes than the limit of the call, or the folder has more than 4,096 files.
    #[error("the file is too large")]
    TooLarge,
    /// The outside world failed, and the count of faults rose.
    #[error("the read failed")]
    Failed,
    /// Memory ran out.
    #[error("out of memory")]
    Memory,
}

/// A reader of files. Paths are relative: none begins with a slash.
pub trait Shelf {
    /// The files agree with all answers that the shelf has given so far.
    ghost agrees: { Self → Files → Type 0 };

    /// How often the outside world has failed.
    ghost faults: { Self → ℕ };

    /// One call takes the shelf from one state to another. A caller over any shelf proves by it which calls it made, in which
    /// order.
    ghost asks: { Self → ShelfCall → Self → Type 0 };

    /// Reads the file at `path`, which may have at most `limit` bytes.
    ///
    /// It fails with one of these errors:
    /// - `Missing`: no file has the path;
    /// - `TooLarge`: the file has more than `limit` bytes;
    /// - `Failed`: the outside world failed, and only then the count of faults rises;
    /// - `Memory`: memory ran out.
    fn read(&mut self, alloc: Global, path: &str, limit: u64) -> Result<Vec<u8>, ShelfError>
        ensures answers_by_the_files { ForFiles (agrees self.new) (λ files. Reads files path.now limit result) }
        ensures asks_for_it { asks self.old (call_of (FileAt path.now limit) result) self.new }
        ensures within_limit { IfOk result (λ bytes. vec_len bytes ≤ limit) }
        ensures answers_stay { ForFiles (agrees self.new) (agrees self.old) }
        ensures nothing_else_counts { ForFiles (agrees self.old) (λ files. Reads files path.now limit result → agrees self.new files) }
        ensures fault_rose { HasCause (faults self.old) (faults self.new) result }
        ensures no_other_fault { StaysUnless Failed (faults self.old) (faults self.new) result };

    /// Returns the names of the files directly in the folder `dir`, each once, in no promised order.
    ///
    /// It fails with one of these errors:
    /// - `Missing`: no file lies directly in the folder;
    /// - `TooLarge`: the folder has more than 4,096 files;
    /// - `Failed`: the outside world failed, and only then the count of faults rises;
    /// - `Memory`: memory ran out.
    fn list(&mut self, alloc: Global, dir: &str) -> Result<Vec<String>, ShelfError>
        ensures answers_by_the_files { ForFiles (agrees self.new) (λ files. Lists files dir.now result) }
        ensures asks_for_it { asks self.old (call_of (NamesIn dir.now) result) self.new }
        ensures within_limit { IfOk result (λ names. vec_len names ≤ 4096) }
        ensures answers_stay { ForFiles (agrees self.new) (agrees self.old) }
        ensures nothing_else_counts { ForFiles (agrees self.old) (λ files. Lists files dir.now result → agrees self.new files) }
        ensures fault_rose { HasCause (faults self.old) (faults self.new) result }
        ensures no_other_fault { StaysUnless Failed (faults self.old) (faults self.new) result };

    /// No path of files that agree begins with a slash or occurs twice.
    ghost agrees_with_maps: { (shelf : Self) → ForFiles (agrees shelf) (λ files. IsTrue (is_file_map files)) };
}
