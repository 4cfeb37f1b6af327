//! Defines rule sets, and gives the action of a rule set on a system call.
//!
//! A rule set says, for each call number, which tests of the arguments lead to which action, as seccomp(2) filters
//! do. `bpf_code` has the data of a call, and `seccomp_compile` turns rules into a program.
#![tactic(auto)]

mod actions;
mod decide;
mod rules;

pub use actions::Action;
pub use bpf_code::codes::{
    ALU_AND_K, JMP_JA, JMP_JEQ_K, JMP_JGE_K, JMP_JGT_K, JMP_JSET_K, LD_W_ABS, RET_K,
};
pub use bpf_code::{CallData, Decision, Insn, Program, ProgramError, Stack, run};
pub use decide::action;
pub use rules::{CallRule, CallRules, Case, Cases, RuleSet, Test, Tests, Wide, are_ascending};
pub use text_forms::item_list::ItemList;
pub use text_forms::line_text::read_text;
pub use text_forms::{errno_number, read_bool};
