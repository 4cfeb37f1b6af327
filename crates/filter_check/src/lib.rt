//! Checks whether a seccomp(2) program from elsewhere decides every call as the rules of a filter do.
//!
//! If they agree on every call, `check(alloc, &program, &rules)?` is `Same` with the number of paths. Otherwise it is `Differs`
//! with the least call data at which their answers differ.
//!
//! - [`filter_lines`]: a program as lines of hex digits.
//! - [`filter_paths`]: the paths of a program, and the call data that take each path.
//! - [`word_sets`]: sets of 32-bit words.
#![tactic(auto)]

mod checking;
mod differences;
pub mod filter_lines;
pub mod filter_paths;
mod groups;
mod laws;
mod leaving;
mod loads;
mod order;
mod outcome;
mod representing;
mod walking;
pub mod word_sets;

pub use checking::check;
pub use laws::one_finding;
pub use outcome::{CheckError, Outcome};
pub use seccomp_compile::{
    Action, CallData, CallRules, Program, ProgramError, RuleSet, Stack, can_compile, run,
};
