// Defines the operations, tests and operands of classic BPF.
/// A register: the accumulator A or the index register X.
#[derive(Clone, Copy)]
pub enum Reg {
    A,
    X,
}

/// The second operand of an operation or a test: the instruction's number k, or X.
#[derive(Clone, Copy)]
pub enum Operand {
    Number,
    X,
}

/// An operation on A and a second operand.
#[derive(Clone, Copy)]
pub enum AluOp {
    Add,
    Sub,
    Mul,
    Div,
    Or,
    And,
    Lsh,
    Rsh,
    Xor,
}

/// A test of A against a second operand: equal, greater, greater or equal, or a bit in common.
#[derive(Clone, Copy)]
pub enum Test {
    Eq,
    Gt,
    Ge,
    Set,
}

/// The result of a program: the instruction's number k, or A.
#[derive(Clone, Copy)]
pub enum Source {
    Number,
    A,
}

/// The operation of an instruction.
#[derive(Clone, Copy)]
pub enum Op {
    /// A becomes the word of the call's data at offset k.
    LoadWord,
    /// The register becomes the length of the call's data, 64.
    LoadLen(Reg),
    /// The register becomes k.
    LoadNumber(Reg),
    /// The register becomes scratch word k.
    LoadScratch(Reg),
    /// Scratch word k becomes the register.
    Store(Reg),
    /// A becomes the result of the operation on A and the operand.
    Alu(AluOp, Operand),
    /// A becomes 0 - A.
    Neg,
    /// X becomes A.
    MoveToX,
    /// A becomes X.
    MoveToA,
    /// The program skips k instructions.
    Jump,
    /// The program skips jt instructions if the test holds, and jf otherwise.
    JumpIf(Test, Operand),
    /// The program ends.
    Return(Source),
}
