//! Runs classic BPF programs as seccomp(2) does, on the data of a system call.
//!
//! `run(&program, &CallData { nr: 1, arch: 0xc000_003e, ip: 0, args: [0; 6] })` answers for a call. A [`Program`] is
//! read from bytes or made of instructions. A [`Stack`] decides by all programs that a process has installed.
//! `linux_numbers` has the words of the actions.
#![tactic(auto)]

pub mod codes;
mod decision;
mod effects;
mod faults;
mod format;
mod interpreter;
mod laws;
mod machine;
mod ops;
mod program;
mod shared;
mod stack;
mod unstored;

pub use decision::Decision;
pub use interpreter::run;
pub use laws::{accepted_by_function, decided_by_function, programs_fit, refusals_stand};
pub use machine::{CallData, Insn};
pub use program::{Program, ProgramError};
pub use stack::{PushError, Stack};
