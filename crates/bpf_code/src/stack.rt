// Defines a stack of programs: all programs that a process has installed.
//
// Each program answers for a call (`interpreter`), and one answer decides (`decision`). Equal stacks share programs (`shared`).
ghost use Rattle.std.specs.Prelude.{◌≡◌, ◌+◌, ◌≤◌, ◌<◌, ◌↔◌, [], ◌∷◌, ◌++◌, length, IfOk, OnOk, OnErr};
ghost use Rattle.linux_numbers.specs.Limits.{max_insns_per_path};
ghost use Rattle.bpf_code.specs.Stack.{room_of, answers_of, deciding, pushed, AnswerEach, Decides, decision_on};

use crate::decision::{Decision, decision_for, stronger_answer};
use crate::machine::CallData;
use crate::program::Program;
use crate::shared::SharedProgram;
use linux_numbers::limits::MAX_INSNS_PER_PATH;
use std::alloc::{AllocError, Global};
use std::marker::Model;
use thiserror::Error;

/// Why a program is not pushed.
#[derive(Clone, Copy, Debug, PartialEq, Eq, Error)]
pub enum PushError {
    /// The programs would take more than 32,768 instructions. Each earlier program takes 4 more than it has.
    #[error("the programs are too long together")]
    TooLong,
    /// Memory ran out.
    #[error("out of memory")]
    Memory,
}

// The room that a program takes beside its instructions.
const PROGRAM_ROOM: usize = 4;

/// The programs of a process, the oldest first.
#[derive(Drop)]
pub struct Stack {
    programs: Vec<SharedProgram>,
}

impl Model for Stack {
    ghost use Rattle.std.specs.Prelude.{List, ◌≤◌};
    ghost use Rattle.bpf_code.specs.declared.machine.Insn.{Insn};
    ghost use Rattle.bpf_code.specs.Stack.{room_of};

    ghost Value = { List (List Insn) };

    ghost view = { λ s. s.programs.items };

    ghost invariant = { λ s. room_of s.programs.items ≤ 32772 };
}

// Returns the room that the programs take.
fn room(programs: &[SharedProgram]) -> usize
    requires { room_of programs.now ≤ 32772 }
    ensures { result ≡ room_of programs.now }
{
    let mut room = 0;
    for program in programs {
        room += program.len() + PROGRAM_ROOM;
    }
    room
}

// Returns the deciding answer after a newer one.
fn with_newer(strongest: Option<u32>, newest: u32) -> u32
    ensures { result ≡ pushed strongest newest }
{
    strongest.map_or(newest, |older| stronger_answer(older, newest))
}

// Returns the deciding answer.
fn deciding_answer(programs: &[SharedProgram], input: &CallData) -> Option<u32>
    ensures deciding { result ≡ deciding (answers_of programs.now input.now) }
    ensures each { AnswerEach programs.now input.now (answers_of programs.now input.now) }
{
    let mut strongest = None;
    for program in programs {
        strongest = Some(with_newer(strongest, program.run(input)));
    }
    strongest
}

// Returns the same programs for one more owner.
fn shares(alloc: Global, programs: &[SharedProgram]) -> Result<Vec<SharedProgram>, AllocError>
    ensures { IfOk result (λ shares. shares.items ≡ programs.now) }
{
    let mut shares = Vec::new(alloc);
    for program in programs {
        shares.push(program.share()?)?;
    }
    Ok(shares)
}

impl Stack {
    /// Makes a stack without programs.
    pub fn new(alloc: Global) -> Self
        ensures empty { result ≡ [] }
    {
        Stack {
            programs: Vec::new(alloc),
        }
    }

    /// Returns an equal stack, which shares its programs with this one.
    pub fn copy(&self) -> Result<Stack, AllocError>
        ensures same { IfOk result (λ stack. stack ≡ self.now) }
    {
        Ok(Stack {
            programs: shares(*self.programs.allocator(), &self.programs)?,
        })
    }

    /// Puts a program on top, if there is room for it. On a refusal the stack stays as it was.
    pub fn push(&mut self, program: Program) -> Result<(), PushError>
        ensures on_top { OnOk result (self.new ≡ self.old ++ program ∷ []) }
        ensures has_room { OnOk result (room_of self.old + length program ≤ max_insns_per_path) }
        ensures too_long { (result ≡ Err PushError.TooLong) ↔ (max_insns_per_path < room_of self.old + length program) }
        ensures stays { OnErr result (self.new ≡ self.old) }
    {
        if room(&self.programs) + program.insns().len() > MAX_INSNS_PER_PATH {
            return Err(PushError::TooLong);
        }
        match SharedProgram::new(*self.programs.allocator(), program) {
            Ok(shared) => self.programs.push(shared).or(Err(PushError::Memory)),
            Err(_) => Err(PushError::Memory),
        }
    }

    /// Returns the decision of the programs about a call. All programs answer, and the least action decides. If several
    /// answers have that action, the newest decides. Nothing is allocated.
    pub fn decide(&self, input: &CallData) -> Decision
        ensures decides { Decides self.now input.now result }
        ensures decision { result ≡ decision_on self.now input.now }
    {
        match deciding_answer(&self.programs, input) {
            None => Decision::Pass,
            Some(answer) => decision_for(answer),
        }
    }
}
