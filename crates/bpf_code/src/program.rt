// Reads programs as seccomp(2) accepts them, and says why it refuses others.
//
// The checks are in `faults` and `unstored`, and the bytes of instructions in `format`.
ghost use Rattle.std.specs.Prelude.{◌≡◌, ◌≤◌, List, length, OnOk, IfOk, IfErr, MatchResult};
ghost use Rattle.bpf_code.specs.declared.machine.Insn.{Insn};
ghost use Rattle.bpf_code.specs.declared.program.ProgramError.{ProgramError};
ghost use Rattle.bpf_code.specs.Accepted.{IsAccepted};
ghost use Rattle.bpf_code.specs.ProgramOf.{program_of};
ghost use Rattle.bpf_code.specs.Reading.{IsCode, Accepts, IsProgram, Refuses, bytes_of, RefusesCode, refusal_of, UnlessMemory, IsOrMemory};

use crate::faults::{ends, first_fault};
use crate::format::{INSN_LEN, bytes_from_insns, insns_from_bytes};
use crate::machine::Insn;
use crate::unstored::first_unstored;
use linux_numbers::limits::BPF_MAXINSNS;
use std::alloc::{AllocError, Global};
use std::marker::Model;
use thiserror::Error;

/// A fault of an instruction.
#[derive(Clone, Copy)]
pub enum Fault {
    /// The code is not in the table.
    Opcode,
    /// The offset of a load is no word of the call's data.
    Load,
    /// The number of a scratch word is 16 or more.
    Scratch,
    /// A shift by 32 or more.
    Shift,
    /// A division by 0.
    DivZero,
    /// A target at or past the end of the program.
    Jump,
}

/// Why bytes are no program. A number is the place of an instruction, from 0.
#[derive(Clone, Copy, Debug, PartialEq, Eq, Error)]
pub enum ProgramError {
    /// The length is no multiple of an instruction's eight bytes.
    #[error("not whole instructions")]
    Length,
    /// There is no instruction.
    #[error("no instruction")]
    Empty,
    /// There are more than 4,096 instructions.
    #[error("more than 4096 instructions")]
    TooLong,
    /// The code is not in the table.
    #[error("instruction {0}: unknown code")]
    Opcode(u32),
    /// The offset of a load is 64 or more, or no multiple of 4.
    #[error("instruction {0}: load outside the data")]
    Load(u32),
    /// The number of a scratch word is 16 or more.
    #[error("instruction {0}: no such scratch word")]
    Scratch(u32),
    /// A shift by 32 or more.
    #[error("instruction {0}: shift by 32 or more")]
    Shift(u32),
    /// A division by 0.
    #[error("instruction {0}: division by zero")]
    DivZero(u32),
    /// A target at or past the end of the program.
    #[error("instruction {0}: jump past the end")]
    Jump(u32),
    /// The last instruction does not end the program.
    #[error("the last instruction does not end the program")]
    NoReturn,
    /// Some path reaches this load without a store of its scratch word.
    #[error("instruction {0}: the scratch word may not be stored")]
    Unstored(u32),
    /// Memory ran out.
    #[error("out of memory")]
    Memory,
}

impl From<AllocError> for ProgramError {
    ghost from_gives = { λ _ e. e ≡ Memory };

    ghost use Rattle.bpf_code.specs.declared.program.ProgramError.TheVariants.{Memory};

    fn from(_error: AllocError) -> Self {
        ProgramError::Memory
    }
}

impl Fault {
    /// Returns the refusal for this fault of the instruction at a place.
    pub fn at(self, place: u32) -> ProgramError
        ensures of_the_fault { result ≡ refusal_of self place }
    {
        match self {
            Fault::Opcode => ProgramError::Opcode(place),
            Fault::Load => ProgramError::Load(place),
            Fault::Scratch => ProgramError::Scratch(place),
            Fault::Shift => ProgramError::Shift(place),
            Fault::DivZero => ProgramError::DivZero(place),
            Fault::Jump => ProgramError::Jump(place),
        }
    }
}

/// A program that seccomp(2) accepts. It has one to 4,096 instructions without a fault, and the last one ends it. Every path
/// stores a scratch word before it loads that word.
#[derive(Drop)]
pub struct Program {
    insns: Vec<Insn>,
}

impl Model for Program {
    ghost use Rattle.std.specs.Prelude.{List};
    ghost use Rattle.bpf_code.specs.declared.machine.Insn.{Insn};
    ghost use Rattle.bpf_code.specs.Reading.{IsProgram};

    ghost Value = { List Insn };

    ghost view = { λ p. p.insns.items };

    ghost invariant = { λ p. IsProgram p.insns.items };
}

// Checks that the bytes are whole instructions, at least one and not too many.
fn check_length(bytes: &[u8]) -> Result<(), ProgramError>
    ensures { MatchResult result (λ _. IsCode bytes.now) (Refuses bytes.now) }
{
    if bytes.len() % INSN_LEN != 0 {
        return Err(ProgramError::Length);
    }
    if bytes.is_empty() {
        return Err(ProgramError::Empty);
    }
    if bytes.len() / INSN_LEN > BPF_MAXINSNS {
        return Err(ProgramError::TooLong);
    }
    Ok(())
}

// Checks that the instructions are accepted.
fn check_insns(alloc: Global, insns: &[Insn]) -> Result<(), ProgramError>
    requires { length insns.now ≤ 4096 }
    ensures accepted { OnOk result (IsAccepted insns.now) }
    ensures refused { IfErr result (UnlessMemory (RefusesCode insns.now)) }
{
    if let Some((place, fault)) = first_fault(insns) {
        return Err(fault.at(place as u32));
    }
    if !ends(insns) {
        return Err(ProgramError::NoReturn);
    }
    if let Some(place) = first_unstored(alloc, insns)? {
        return Err(ProgramError::Unstored(place as u32));
    }
    Ok(())
}

impl Program {
    /// Reads the program of some bytes, with the checks of seccomp(2), or returns the first refusal.
    ///
    /// Each instruction is a `struct sock_filter`, little endian. Unless memory runs out, it returns a program exactly if the
    /// bytes are that program, and a refusal exactly if that refusal is the first.
    pub fn read(alloc: Global, bytes: &[u8]) -> Result<Program, ProgramError>
        ensures accepts { IfOk result (Accepts bytes.now) }
        ensures refuses { IfErr result (UnlessMemory (Refuses bytes.now)) }

        // It returns each answer whenever it must, unless memory runs out.
        ensures whole_program { (program : List Insn) → Accepts bytes.now program → IsOrMemory result (Ok program) }
        ensures first_refusal { (error : ProgramError) → Refuses bytes.now error → IsOrMemory result (Err error) }

        // The function `program_of` says the same.
        ensures program_of { MatchResult result
            (λ program. program_of bytes.now ≡ Some program)
            (UnlessMemory (λ error. program_of bytes.now ≡ None)) }
    {
        check_length(bytes)?;
        let insns = insns_from_bytes(alloc, bytes)?;
        check_insns(alloc, &insns)?;
        Ok(Program { insns })
    }

    /// Returns the bytes of the instructions, which are read back as this program.
    pub fn bytes(&self, alloc: Global) -> Result<Vec<u8>, AllocError>
        ensures of_the_instructions { IfOk result (λ bytes. bytes.items ≡ bytes_of self.now) }
        ensures read_back { IfOk result (λ bytes. Accepts bytes.items self.now) }
    {
        bytes_from_insns(alloc, &self.insns)
    }

    /// Makes the program of these instructions, whose bytes are accepted.
    pub fn made(insns: Vec<Insn>) -> Self
        requires { IsProgram insns.items }
        ensures of_the_instructions { result ≡ insns.items }
    {
        Program { insns }
    }

    /// Returns the instructions, whose bytes are accepted.
    pub fn insns(&self) -> &[Insn]
        ensures insns { result.now ≡ self.now }
        ensures program { IsProgram self.now }
    {
        &self.insns
    }

    /// Returns an equal program.
    pub fn copy(&self) -> Result<Program, AllocError>
        ensures same { IfOk result (λ program. program ≡ self.now) }
    {
        Ok(Program {
            insns: self.insns.clone()?,
        })
    }
}
