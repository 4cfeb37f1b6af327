// Lists the codes of instructions that seccomp(2) allows, and the operation of each.
//
// <linux/bpf_common.h> names the parts of a code: a class, and with it a size and a mode, or an operation and an
// operand.
ghost use Rattle.std.specs.Prelude.{◌≡◌};
ghost use Rattle.bpf_code.specs.Ops.{op_of};

use crate::ops::{AluOp, Op, Operand, Reg, Source, Test};

// Classes; ST and STX are codes by themselves.
const LD: u16 = 0x00;

const LDX: u16 = 0x01;

const ST: u16 = 0x02;

const STX: u16 = 0x03;

const ALU: u16 = 0x04;

const JMP: u16 = 0x05;

const RET: u16 = 0x06;

const MISC: u16 = 0x07;

// The size of a load: a word of 32 bits.
const W: u16 = 0x00;

// Modes of loads: a number, an offset in the data, a scratch word, the length of the data.
const IMM: u16 = 0x00;

const ABS: u16 = 0x20;

const MEM: u16 = 0x60;

const LEN: u16 = 0x80;

// Operations.
const ADD: u16 = 0x00;

const SUB: u16 = 0x10;

const MUL: u16 = 0x20;

const DIV: u16 = 0x30;

const OR: u16 = 0x40;

const AND: u16 = 0x50;

const LSH: u16 = 0x60;

const RSH: u16 = 0x70;

const NEG: u16 = 0x80;

const XOR: u16 = 0xa0;

// Jumps: always, and by a test.
const JA: u16 = 0x00;

const JEQ: u16 = 0x10;

const JGT: u16 = 0x20;

const JGE: u16 = 0x30;

const JSET: u16 = 0x40;

// Operands: the instruction's number, X, and for a return also A.
const K: u16 = 0x00;

const X: u16 = 0x08;

const A: u16 = 0x10;

// Moves between the registers.
const TAX: u16 = 0x00;

const TXA: u16 = 0x80;

/// BPF_LD | BPF_W | BPF_ABS
pub const LD_W_ABS: u16 = LD | W | ABS;

/// BPF_ALU | BPF_AND | BPF_K
pub const ALU_AND_K: u16 = ALU | AND | K;

/// BPF_JMP | BPF_JA
pub const JMP_JA: u16 = JMP | JA;

/// BPF_JMP | BPF_JEQ | BPF_K
pub const JMP_JEQ_K: u16 = JMP | JEQ | K;

/// BPF_JMP | BPF_JGT | BPF_K
pub const JMP_JGT_K: u16 = JMP | JGT | K;

/// BPF_JMP | BPF_JGE | BPF_K
pub const JMP_JGE_K: u16 = JMP | JGE | K;

/// BPF_JMP | BPF_JSET | BPF_K
pub const JMP_JSET_K: u16 = JMP | JSET | K;

/// BPF_RET | BPF_K
pub const RET_K: u16 = RET | K;

/// Returns the operation of a code, or None if the code is not in the table.
#[inline(always)]
pub(crate) fn decode(code: u16) -> Option<Op>
    ensures { result ≡ op_of code }
{
    // A pattern needs a named constant, so a code without a name is compared with its parts.
    match code {
        LD_W_ABS => Some(Op::LoadWord),
        _ if code == LD | W | LEN => Some(Op::LoadLen(Reg::A)),
        _ if code == LDX | W | LEN => Some(Op::LoadLen(Reg::X)),
        _ if code == LD | IMM => Some(Op::LoadNumber(Reg::A)),
        _ if code == LDX | IMM => Some(Op::LoadNumber(Reg::X)),
        _ if code == LD | MEM => Some(Op::LoadScratch(Reg::A)),
        _ if code == LDX | MEM => Some(Op::LoadScratch(Reg::X)),
        ST => Some(Op::Store(Reg::A)),
        STX => Some(Op::Store(Reg::X)),
        _ if code == ALU | ADD | K => Some(Op::Alu(AluOp::Add, Operand::Number)),
        _ if code == ALU | SUB | K => Some(Op::Alu(AluOp::Sub, Operand::Number)),
        _ if code == ALU | MUL | K => Some(Op::Alu(AluOp::Mul, Operand::Number)),
        _ if code == ALU | DIV | K => Some(Op::Alu(AluOp::Div, Operand::Number)),
        _ if code == ALU | OR | K => Some(Op::Alu(AluOp::Or, Operand::Number)),
        ALU_AND_K => Some(Op::Alu(AluOp::And, Operand::Number)),
        _ if code == ALU | LSH | K => Some(Op::Alu(AluOp::Lsh, Operand::Number)),
        _ if code == ALU | RSH | K => Some(Op::Alu(AluOp::Rsh, Operand::Number)),
        _ if code == ALU | XOR | K => Some(Op::Alu(AluOp::Xor, Operand::Number)),
        _ if code == ALU | ADD | X => Some(Op::Alu(AluOp::Add, Operand::X)),
        _ if code == ALU | SUB | X => Some(Op::Alu(AluOp::Sub, Operand::X)),
        _ if code == ALU | MUL | X => Some(Op::Alu(AluOp::Mul, Operand::X)),
        _ if code == ALU | DIV | X => Some(Op::Alu(AluOp::Div, Operand::X)),
        _ if code == ALU | OR | X => Some(Op::Alu(AluOp::Or, Operand::X)),
        _ if code == ALU | AND | X => Some(Op::Alu(AluOp::And, Operand::X)),
        _ if code == ALU | LSH | X => Some(Op::Alu(AluOp::Lsh, Operand::X)),
        _ if code == ALU | RSH | X => Some(Op::Alu(AluOp::Rsh, Operand::X)),
        _ if code == ALU | XOR | X => Some(Op::Alu(AluOp::Xor, Operand::X)),
        _ if code == ALU | NEG => Some(Op::Neg),
        _ if code == MISC | TAX => Some(Op::MoveToX),
        _ if code == MISC | TXA => Some(Op::MoveToA),
        JMP_JA => Some(Op::Jump),
        JMP_JEQ_K => Some(Op::JumpIf(Test::Eq, Operand::Number)),
        JMP_JGT_K => Some(Op::JumpIf(Test::Gt, Operand::Number)),
        JMP_JGE_K => Some(Op::JumpIf(Test::Ge, Operand::Number)),
        JMP_JSET_K => Some(Op::JumpIf(Test::Set, Operand::Number)),
        _ if code == JMP | JEQ | X => Some(Op::JumpIf(Test::Eq, Operand::X)),
        _ if code == JMP | JGT | X => Some(Op::JumpIf(Test::Gt, Operand::X)),
        _ if code == JMP | JGE | X => Some(Op::JumpIf(Test::Ge, Operand::X)),
        _ if code == JMP | JSET | X => Some(Op::JumpIf(Test::Set, Operand::X)),
        RET_K => Some(Op::Return(Source::Number)),
        _ if code == RET | A => Some(Op::Return(Source::A)),
        _ => None,
    }
}
