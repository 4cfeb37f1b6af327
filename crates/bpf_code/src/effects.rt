// Performs instructions: each changes the registers and leads to another instruction or to the end.
//
// The definitions have the table `effect_of`; `perform` is that table as code.
ghost use Rattle.std.specs.Prelude.{flat_map, length, ◌*◌, ◌≡◌, ◌<◌, ◌%◌, ◌/◌, ◌^◌, if◌then◌else◌, ℕ, slice_index, None};
ghost use Rattle.bpf_code.specs.Effects.{halves, words_of, effect_of, result_of_op, holds, alu_effect, value_of};
ghost use Rattle.bpf_code.specs.Accepted.{op_fault};

use crate::machine::{CallData, DATA_LEN, Effect, Insn, Regs};
use crate::ops::{AluOp, Op, Operand, Reg, Source, Test};

// Returns the low or the high 32 bits.
#[inline(always)]
fn half(n: u64, high: bool) -> u32
    ensures { result ≡ (if high then n / 2 ^ 32 else n % 2 ^ 32) }
{
    if high {
        (n >> 32) as u32
    } else {
        (n & 0xffff_ffff) as u32
    }
}

// Returns a word of the arguments.
#[inline(always)]
fn argument_word(args: &[u64], at: usize) -> u32
    requires { at < 2 * length args.now }
    ensures { result ≡ slice_index (flat_map halves args.now) at }
{
    half(args[at / 2], at % 2 == 1)
}

// Returns a word of the data.
#[inline(always)]
fn word(input: &CallData, at: u32) -> u32
    requires { at < 16 }
    ensures { result ≡ slice_index (words_of input.now) at }
{
    match at {
        0 => input.nr,
        1 => input.arch,
        2 => half(input.ip, false),
        3 => half(input.ip, true),
        _ => argument_word(&input.args, at as usize - 4),
    }
}

#[inline(always)]
fn operate(op: AluOp, a: u32, b: u32) -> u32
    requires { op ≡ AluOp.Div → 0 < b }
    ensures { result ≡ result_of_op op a b }
{
    match op {
        AluOp::Add => a.wrapping_add(b),
        AluOp::Sub => a.wrapping_sub(b),
        AluOp::Mul => a.wrapping_mul(b),
        AluOp::Div => a / b,
        AluOp::Or => a | b,
        AluOp::And => a & b,
        AluOp::Lsh => a.wrapping_shl(b),
        AluOp::Rsh => a.wrapping_shr(b),
        AluOp::Xor => a ^ b,
    }
}

#[inline(always)]
fn test_holds(test: Test, a: u32, b: u32) -> bool
    ensures { result ≡ holds test a b }
{
    match test {
        Test::Eq => a == b,
        Test::Gt => a > b,
        Test::Ge => a >= b,
        Test::Set => a & b != 0,
    }
}

#[inline(always)]
fn operand_value(operand: Operand, insn: Insn, regs: &Regs) -> u32
    ensures { result ≡ value_of operand insn regs.now }
{
    match operand {
        Operand::Number => insn.k,
        Operand::X => regs.x,
    }
}

// Performs an operation on A. A division by 0 ends the program.
#[inline(always)]
fn alu(op: AluOp, regs: &mut Regs, n: u32) -> Effect
    ensures { (result, regs.new) ≡ alu_effect op n regs.old }
{
    match op {
        AluOp::Div if n == 0 => Effect::End(0),
        _ => {
            regs.a = operate(op, regs.a, n);
            Effect::Skip(0)
        }
    }
}

/// Performs an instruction that has no fault, given the operation of its code.
#[inline(always)]
pub fn perform(op: Op, insn: Insn, regs: &mut Regs, input: &CallData) -> Effect
    requires { (left : ℕ) × (op_fault op insn left ≡ None) }
    ensures by_the_effect { (result, regs.new) ≡ effect_of op insn regs.old input.now }
{
    match op {
        Op::LoadWord => regs.a = word(input, insn.k / 4),
        Op::LoadLen(Reg::A) => regs.a = DATA_LEN,
        Op::LoadLen(Reg::X) => regs.x = DATA_LEN,
        Op::LoadNumber(Reg::A) => regs.a = insn.k,
        Op::LoadNumber(Reg::X) => regs.x = insn.k,
        Op::LoadScratch(Reg::A) => regs.a = regs.scratch[insn.k as usize],
        Op::LoadScratch(Reg::X) => regs.x = regs.scratch[insn.k as usize],
        Op::Store(Reg::A) => regs.scratch[insn.k as usize] = regs.a,
        Op::Store(Reg::X) => regs.scratch[insn.k as usize] = regs.x,
        Op::Alu(op, from) => return alu(op, regs, operand_value(from, insn, regs)),
        Op::Neg => regs.a = operate(AluOp::Sub, 0, regs.a),
        Op::MoveToX => regs.x = regs.a,
        Op::MoveToA => regs.a = regs.x,
        Op::Jump => return Effect::Skip(insn.k),
        Op::JumpIf(test, from) => {
            let skip = if test_holds(test, regs.a, operand_value(from, insn, regs)) {
                insn.jt
            } else {
                insn.jf
            };
            return Effect::Skip(u32::from(skip));
        }
        Op::Return(Source::Number) => return Effect::End(insn.k),
        Op::Return(Source::A) => return Effect::End(regs.a),
    }
    Effect::Skip(0)
}
