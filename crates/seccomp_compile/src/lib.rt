//! Compiles rule sets to BPF programs that decide as the rules do, for seccomp(2).
//!
//! For every rule set within its condition, [`compile`] gives a program whose answer on the data of any system call
//! is the action of the rules: `if can_compile(&rules) { compile(alloc, &rules)? }`. `call_rules` says what the rules
//! mean, and `bpf_code` what a program answers.
//!
//! Rules become a decision tree, and the tree becomes a program. Neighbouring numbers that end with the same action
//! are one run, and a balanced tree of comparisons finds the run of a number. Such a tree also finds the value of an
//! argument. Other cases are tested in order. An ending that is near is used again.
#![tactic(auto)]

mod cases;
mod compiler;
mod condition;
mod decisions;
mod emit;
mod instructions;
mod looks;
mod offsets;
mod runs;
mod tree;
mod values;

pub use call_rules::{
    ALU_AND_K, Action, CallData, CallRules, Insn, JMP_JA, JMP_JEQ_K, JMP_JGE_K, JMP_JGT_K,
    JMP_JSET_K, LD_W_ABS, Program, ProgramError, RET_K, RuleSet, Stack, read_text, run,
};
pub use compiler::compile;
pub use condition::can_compile;
