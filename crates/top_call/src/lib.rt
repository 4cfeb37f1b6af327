//! Runs the command that the words ask for, and prints its text.
//!
//! `run` takes words, a shelf, a sink, the stored tests of scores and the wishes for a tightened unit, and answers a
//! status. Each command is a crate of its own: `filter_command`, `plan_command`, `judge_command`, `replay_command`,
//! `derive_command`, `effect_command`, `tighten_command`, `why_command`, `check_command` and `sample_command`;
//! `score_command` has `score` and `fleet`. It is prepared and then finished as `command_answers` says for all.
//!
//! `run(alloc, &["filter", "web.service"], &mut shelf, &mut out, tests, wishes)` prints the filters of a unit.
#![tactic(auto)]

mod request;
mod running;
mod status;
mod texts;

pub use check_command::{CallData, Program, run as bpf_code_run};
pub use judge_command::{Question, Wish};
pub use plan_command::ExitStatus;
pub use replay_command::VerdictRow;
pub use running::run;
pub use score_command::{CustomTest, Facts, Stored, ambient_count, writable_paths};
pub use status::Status;
pub use tighten_command::tightening::{StoredWish, Wished};
