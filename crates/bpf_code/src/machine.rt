// Defines the machine of classic BPF: its instructions, the data of a call, and its registers.
ghost use Rattle.std.specs.Prelude.{◌≡◌};
ghost use Rattle.bpf_code.specs.Meaning.{start_regs};

/// The number of bytes of a call's data, `sizeof(struct seccomp_data)`.
pub const DATA_LEN: u32 = 64;

/// The number of scratch words, BPF_MEMWORDS.
pub const SCRATCH_WORDS: u32 = 16;

/// An instruction, `struct sock_filter` of seccomp(2).
#[derive(Clone, Copy)]
pub struct Insn {
    /// The operation of the instruction: a code of [`crate::codes`].
    pub code: u16,
    /// The number of instructions that a test skips if it holds.
    pub jt: u8,
    /// The number of instructions that a test skips if it fails.
    pub jf: u8,
    /// A number, an offset, a scratch word or a distance.
    pub k: u32,
}

/// The input of a program: a system call, `struct seccomp_data` of seccomp(2).
#[derive(Clone, Copy)]
pub struct CallData {
    /// The number of the call.
    pub nr: u32,
    /// The architecture, an AUDIT_ARCH value.
    pub arch: u32,
    /// The instruction pointer at the call.
    pub ip: u64,
    /// The arguments of the call.
    pub args: [u64; 6],
}

/// The registers A and X, and the scratch words.
#[derive(Clone, Copy)]
pub struct Regs {
    pub a: u32,
    pub x: u32,
    pub scratch: [u32; 16],
}

/// The next step after an instruction.
#[derive(Clone, Copy)]
pub enum Effect {
    /// The program ends with this result.
    End(u32),
    /// The program skips this many instructions.
    Skip(u32),
}

impl Regs {
    /// Returns registers that are all zero, as at the start of a program.
    pub fn new() -> Self
        ensures all_zero { result ≡ start_regs }
    {
        Regs {
            a: 0,
            x: 0,
            scratch: [0; 16],
        }
    }
}
