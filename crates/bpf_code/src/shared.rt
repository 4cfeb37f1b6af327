// Holds a program once for all processes that have it, and drops it with the last of them.
ghost use Rattle.std.specs.Prelude.{◌≡◌, IfOk, length};
ghost use Rattle.bpf_code.specs.Meaning.{Answers};

use crate::interpreter::run;
use crate::machine::CallData;
use crate::program::Program;
use std::alloc::{AllocError, Global};
use std::marker::Model;
use std::rc::Rc;

/// A program that several owners share. Contracts see the program.
#[derive(Drop)]
pub(crate) struct SharedProgram {
    program: Rc<Program>,
}

impl Model for SharedProgram {
    ghost use Rattle.std.specs.Prelude.{List};
    ghost use Rattle.bpf_code.specs.declared.machine.Insn.{Insn};

    ghost Value = { List Insn };

    ghost view = { λ s. s.program.value };
}

impl SharedProgram {
    /// Holds a program for one owner.
    pub fn new(alloc: Global, program: Program) -> Result<Self, AllocError>
        ensures of_the_program { IfOk result (λ shared. shared ≡ program) }
    {
        match Rc::new(alloc, program) {
            Ok(program) => Ok(SharedProgram { program }),
            Err(_) => Err(AllocError),
        }
    }

    /// Returns the same program for one more owner.
    pub fn share(&self) -> Result<Self, AllocError>
        ensures same { IfOk result (λ shared. shared ≡ self.now) }
    {
        Ok(SharedProgram {
            program: self.program.clone()?,
        })
    }

    /// Returns how many instructions the program has.
    pub fn len(&self) -> usize
        ensures counts { result ≡ length self.now }
    {
        self.program.insns().len()
    }

    /// Returns the answer of the program for the data of a call.
    pub fn run(&self, input: &CallData) -> u32
        ensures answers { Answers self.now input.now result }
    {
        run(&self.program, input)
    }
}
