//! Defines the trait `Sink`, which takes bytes, and its errors, and writes a whole piece.
//!
//! Contracts describe a sink by a count of faults, by its state after a put, and, if it shows them, by the bytes taken so far.
ghost use Rattle.std.specs.Prelude.{◌≡◌, ℕ, List, Option};
ghost use Rattle.host_io.specs.declared.writing.SinkError.TheVariants.{Failed};
ghost use Rattle.host_io.specs.Causes.{StaysUnless};
ghost use Rattle.host_io.specs.Puts.{Put, Hands, put_of};
ghost use Rattle.host_io.specs.Writing.{Takes, TakesWhole, HasCause};

use thiserror::Error;

/// Why bytes were not taken.
#[derive(Clone, Copy, Debug, PartialEq, Eq, Error)]
pub enum SinkError {
    /// The outside world failed, and the count of faults rose.
    #[error("the write failed")]
    Failed,
    /// Memory ran out.
    #[error("out of memory")]
    Memory,
}

/// A writer of bytes.
pub trait Sink {
    /// The bytes taken so far, if the sink shows them.
    ghost taken: { Self → Option (List ℕ) };

    /// How often the outside world has failed.
    ghost faults: { Self → ℕ };

    /// One put takes the sink from one state to another. A caller over any sink proves by it which pieces it handed, in which order.
    ghost puts: { Self → Put → Self → Type 0 };

    /// Takes a prefix of the piece and returns its length, at least one byte of a piece that is not empty.
    ///
    /// At an error it has taken nothing. `Failed` means that the outside world failed, and only then the count of faults rises.
    /// `Memory` means that memory ran out.
    fn put(&mut self, piece: &[u8]) -> Result<usize, SinkError>
        ensures takes_a_prefix { Takes (taken self.old) (taken self.new) piece.now result }
        ensures hands_it { puts self.old (put_of piece.now result) self.new }
        ensures fault_rose { HasCause (faults self.old) (faults self.new) result }
        ensures no_other_fault { StaysUnless Failed (faults self.old) (faults self.new) result };
}

/// Puts the whole piece, in at most as many turns as it has bytes.
///
/// The first put gets the whole piece, and each further put gets the rest of it. An empty piece makes no put. At an error the
/// sink has taken a prefix, and not the whole piece. `Failed` means that a put failed, and only then the count of faults
/// rises. `Memory` means that memory ran out.
pub fn write_whole<K: Sink>(out: &mut K, piece: &[u8]) -> Result<(), SinkError>
    ensures takes_the_piece { TakesWhole (K.taken out.old) (K.taken out.new) piece.now result }
    ensures hands_the_piece { Hands K.puts out.old out.new piece.now result }
    ensures fault_rose { HasCause (K.faults out.old) (K.faults out.new) result }
    ensures no_other_fault { StaysUnless Failed (K.faults out.old) (K.faults out.new) result }
{
    let mut at = 0;
    while at < piece.len() {
        at += out.put(&piece[at..])?;
    }
    Ok(())
}
