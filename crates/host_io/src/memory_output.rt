//! Implements a sink in memory. Its puts with given numbers fail.
//!
//! The sink shows the bytes that it took. It numbers its puts from 1.
ghost use Rattle.std.specs.Prelude.{◌≡◌, ◌<◌, ◌↔◌, [], ◌++◌, length, min, Some, IfOk, MatchResult, IsTrue, IsErrOf};
ghost use Rattle.host_io.specs.declared.writing.SinkError.TheVariants.{Failed, Memory};
ghost use Rattle.host_io.specs.Causes.{StaysUnless};
ghost use Rattle.host_io.specs.MemoryOutput.{PutsMemory};
ghost use Rattle.host_io.specs.Puts.{put_of};
ghost use Rattle.host_io.specs.Turns.{fails_now, after_turn};
ghost use Rattle.host_io.specs.Writing.{Takes, HasCause};

use crate::turns::Turns;
use crate::writing::{Sink, SinkError};
use std::alloc::Global;
use std::marker::Model;

/// Bytes taken in memory.
#[derive(Drop)]
pub struct MemSink {
    limit: u64,
    bytes: Vec<u8>,
    turns: Turns,
}

impl Model for MemSink {
    ghost use Rattle.std.specs.Prelude.{◌<◌};
    ghost use Rattle.host_io.specs.MemoryOutput.{MemTaken};

    ghost Value = { MemTaken };

    ghost view = { λ s. record { limit = s.limit; bytes = s.bytes.items; turns = s.turns } };

    ghost invariant = { λ s. 0 < s.limit };
}

impl MemSink {
    /// Makes a sink that takes at most `take` bytes a put. Its puts with the numbers in `failing` fail.
    pub fn new(alloc: Global, take: u64, failing: Vec<u64>) -> Self
        requires { 0 < take }
        ensures starts { result ≡ record { limit = take; bytes = []; turns = record { failing = failing.items; made = 0; faults = 0 } } }
    {
        MemSink {
            limit: take,
            bytes: Vec::new(alloc),
            turns: Turns::new(failing),
        }
    }

    /// Returns the bytes taken so far.
    pub fn taken(&self) -> &[u8]
        ensures lends_the_bytes { result.now ≡ self.now.bytes }
    {
        &self.bytes
    }

    // Takes these bytes.
    fn takes(&mut self, bytes: &[u8]) -> Result<(), SinkError>
        ensures taken { MatchResult result (λ _. self.new ≡ record self.old { bytes = self.old.bytes ++ bytes.now }) (λ e. (e ≡ Memory) × (self.new ≡ self.old)) }
    {
        self.bytes
            .extend_from_slice(bytes)
            .or(Err(SinkError::Memory))
    }
}

impl Sink for MemSink {
    ghost taken = { λ sink. Some sink.bytes };

    ghost faults = { λ sink. sink.turns.faults };

    ghost puts = { PutsMemory };

    fn put(&mut self, piece: &[u8]) -> Result<usize, SinkError>
        ensures takes_a_prefix { Takes (Some self.old.bytes) (Some self.new.bytes) piece.now result }
        ensures hands_it { PutsMemory self.old (put_of piece.now result) self.new }
        ensures fault_rose { HasCause self.old.turns.faults self.new.turns.faults result }
        ensures no_other_fault { StaysUnless Failed self.old.turns.faults self.new.turns.faults result }
        ensures takes_what_fits { IfOk result (λ count. count ≡ min (length piece.now) self.old.limit) }
        ensures fails_as_told { IsErrOf result Failed ↔ IsTrue (fails_now self.old.turns) }
        ensures counts_the_put { self.new ≡ record self.old { bytes = self.new.bytes; turns = after_turn self.old.turns } }
    {
        if self.turns.next_fails() {
            return Err(SinkError::Failed);
        }
        let limit = self.limit;
        let count = if (piece.len() as u64) < limit {
            piece.len()
        } else {
            limit as usize
        };
        self.takes(&piece[..count])?;
        Ok(count)
    }
}
