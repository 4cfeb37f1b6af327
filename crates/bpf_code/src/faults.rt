// Finds faults of instructions, and tests whether the last one ends the program.
ghost use Rattle.std.specs.Prelude.{◌≡◌, ◌-◌, Some, None, MatchOption};
ghost use Rattle.bpf_code.specs.Ops.{op_of};
ghost use Rattle.bpf_code.specs.Accepted.{unless, number_fault, op_fault, fault_of, AreFine, IsFirstFault, is_return, ends_in_return};

use crate::codes::decode;
use crate::machine::{DATA_LEN, Insn, SCRATCH_WORDS};
use crate::ops::{AluOp, Op, Operand};
use crate::program::Fault;

const WORD_LEN: u32 = 4;

const WORD_BITS: u32 = 32;

fn fault_unless(good: bool, fault: Fault) -> Option<Fault>
    ensures { result ≡ unless good fault }
{
    if good { None } else { Some(fault) }
}

// Returns the fault of an operation with the instruction's number.
fn fault_of_number(op: AluOp, number: u32) -> Option<Fault>
    ensures { result ≡ number_fault op number }
{
    match op {
        AluOp::Div => fault_unless(number > 0, Fault::DivZero),
        AluOp::Lsh | AluOp::Rsh => fault_unless(number < WORD_BITS, Fault::Shift),
        _ => None,
    }
}

// Returns the fault of an instruction with this operation, given how many instructions follow it.
fn fault_in(op: Op, insn: Insn, left: usize) -> Option<Fault>
    ensures { result ≡ op_fault op insn left }
{
    match op {
        Op::LoadWord => fault_unless(insn.k < DATA_LEN && insn.k % WORD_LEN == 0, Fault::Load),
        Op::LoadScratch(_) | Op::Store(_) => fault_unless(insn.k < SCRATCH_WORDS, Fault::Scratch),
        Op::Alu(op, Operand::Number) => fault_of_number(op, insn.k),
        Op::Jump => fault_unless((insn.k as usize) < left, Fault::Jump),
        Op::JumpIf(_, _) => {
            fault_unless(
                (insn.jt as usize) < left && (insn.jf as usize) < left,
                Fault::Jump,
            )
        }
        _ => None,
    }
}

// Returns the fault of an instruction, given how many instructions follow it.
fn fault(insn: Insn, left: usize) -> Option<Fault>
    ensures { result ≡ fault_of insn left }
{
    match decode(insn.code) {
        None => Some(Fault::Opcode),
        Some(op) => fault_in(op, insn, left),
    }
}

/// Returns the place and the fault of the first instruction that has one.
pub fn first_fault(insns: &[Insn]) -> Option<(usize, Fault)>
    ensures the_first { MatchOption result (AreFine insns.now) (λ found. IsFirstFault insns.now found.0 found.1) }
{
    for (place, insn) in insns.iter().enumerate() {
        if let Some(fault) = fault(*insn, insns.len() - place - 1) {
            return Some((place, fault));
        }
    }
    None
}

// Returns whether an instruction ends the program.
fn is_end(insn: Insn) -> bool
    ensures { result ≡ is_return (op_of insn.code) }
{
    matches!(decode(insn.code), Some(Op::Return(_)))
}

/// Returns whether the last instruction ends the program.
pub fn ends(insns: &[Insn]) -> bool
    ensures in_a_return { result ≡ ends_in_return insns.now }
{
    match insns.last() {
        None => false,
        Some(insn) => is_end(*insn),
    }
}
