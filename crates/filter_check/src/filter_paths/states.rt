//! Defines the position of a walk through a program.
ghost use Rattle.std.specs.Prelude.{◌≡◌};

use crate::filter_paths::held::Held;
use crate::filter_paths::region::Region;
use seccomp_compile::CallData;

/// A position of a program, the content of the accumulator there, and the call data that reach both.
#[derive(Drop)]
pub struct State {
    pub at: usize,
    pub held: Held,
    pub region: Region,
}

/// The end of a path: the data that take it, the least of them, and the program's answer.
#[derive(Drop)]
pub struct End {
    pub region: Region,
    pub least: CallData,
    pub answer: u32,
}

/// Says where an instruction leads the data of a state.
#[derive(Drop)]
pub enum Next {
    /// The program ends there.
    End(End),
    /// All data continue at one position.
    One(State),
    /// Some data continue at one position, and the others at another.
    Two(State, State),
}
