//! Makes the lines of reports on services, each with its line feed.
//!
//! A report begins with the unit and the notes on parts of its files that have no effect. Then come its launch and
//! the answers to questions. A score has a line for each test of its policy.
//!
//! `unit_line(alloc, "web.service")?` is `unit web.service` with its line feed.
#![tactic(auto)]

mod answers;
mod launches;
mod notes;
mod scores;
mod wording;

pub use answers::{
    open_lines, push_blind_line, push_call_lines, question_line, summary_line, verdict_line,
};
pub use exposure_score::policy_file::{Policy, PolicyError, TestId, read_policy};
pub use exposure_score::policy_weights::weighs;
pub use exposure_score::service_facts::facts;
pub use exposure_score::service_facts::laws::accepted_units_write_few_paths;
pub use exposure_score::{
    Assignment, Assignments, CallTable, CustomTest, Facts, FileNote, Notes, Place, ResolveError,
    Resolved, Row, RowKind, Score, ScoreError, ScoreRow, SiteTable, Stored, Text, UnitError,
    UnitFile, UnitFiles, UnitText, ambient_count, read_unit, resolve, score, service_assignments,
    writable_paths,
};
pub use launches::{Launched, killed_line, launched_line, privileged_line, refused_line};
pub use notes::{note_line, unit_line};
pub use questions::{Question, Verdict, questions};
pub use scores::{exposure_line, score_line};
pub use script_text::{Script, ScriptCause, ScriptError, print_call, read_script};
