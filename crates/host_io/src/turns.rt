//! Counts calls. The calls with given numbers fail.
//!
//! A shelf and a sink in memory count their calls this way, from 1.
ghost use Rattle.std.specs.Prelude.{◌≡◌, ◌≤◌, IsTrue, IsFalse};
ghost use Rattle.host_io.specs.Causes.{Rose};
ghost use Rattle.host_io.specs.Turns.{fails_now, after_turn};

use std::marker::Model;

/// The numbers of the calls that fail, how many calls were made, and how many failed.
#[derive(Drop)]
pub struct Turns {
    failing: Vec<u64>,
    made: u64,
    faults: u64,
}

impl Model for Turns {
    ghost use Rattle.host_io.specs.Turns.{TurnCounts};

    ghost Value = { TurnCounts };

    ghost view = { λ t. record { failing = t.failing.items; made = t.made; faults = t.faults } };
}

impl Turns {
    /// Starts with no call. The calls with the numbers in `failing` will fail.
    pub fn new(failing: Vec<u64>) -> Self
        ensures starts { result ≡ record { failing = failing.items; made = 0; faults = 0 } }
    {
        Turns {
            failing,
            made: 0,
            faults: 0,
        }
    }

    /// Counts a call, and returns whether it fails.
    pub fn next_fails(&mut self) -> bool
        ensures fails { result ≡ fails_now self.old }
        ensures counts { self.new ≡ after_turn self.old }
        ensures later { self.old.faults ≤ self.new.faults }
        ensures rose { IsTrue result → Rose self.old.faults self.new.faults }
        ensures stays { IsFalse result → self.new.faults ≡ self.old.faults }
    {
        self.made = self.made.saturating_add(1);
        let fails = self.failing.contains(&self.made);
        if fails {
            self.faults = self.faults.saturating_add(1);
        }
        fails
    }
}
