//! Launches a unit's service, asks it questions, and gives the verdicts.
//!
//! [`launching`] takes a unit through its settings, its plan and its launch: `launch_unit` returns the service or one
//! [`Refusal`], and `tell_refusal` has the line of a refusal. A unit has one answer; that is a law, in [`laws`].
//!
//! `ask(alloc, service)?` is a service with all questions about it. [`verdict_changes`] compares two of them. `truths` is the
//! law that the answers are true, and `read_script` has the calls of a script.
//!
//! `bound(alloc, service)?.is_open(&question)` gives one verdict, and `verdict_rows(alloc, &bounded, &list)?` those
//! on all questions, in their order. The crate uses `launcher`, `ceilings`, `questions`,
//! `judge` and `open_calls`.
#![tactic(auto)]

mod asking;
mod bounding;
mod folders;
pub mod launching;
pub mod laws;
mod reasons;
mod rows;
mod script;
pub mod verdict_changes;

pub use asking::{Asked, ask};
pub use bounding::{Bounded, bound};
pub use folders::is_named;
pub use judge::{
    Call, Ceiling, FilterProgram, Flags, LaunchError, Launched, MountStep, MountSteps, MountTable,
    PlanError, Reply, Settings, SettingsError, Version, What, World, alike, blind, ceiling, fits,
    is_read, openness, plan, settings, verdict,
};
pub use launching::{
    Refusal, launch_line, launch_settled, launch_unit, refused_launch, tell_refusal,
};
pub use open_calls::{Service, calls};
pub use plan_command::{
    CommandError, ExitStatus, ItemList, Line, Ready, ReadyText, SettledUnit, finish, finish_error,
    plan_line, plan_mounts, push_u64, push_word, put_line, read_input, read_inputs, read_lines,
    read_text, refuse, refused_line, settings_line, settle, settle_unit, status_after,
    unit_line as unit_inputs_unit_line,
};
pub use reasons::truths;
pub use report_text::{
    Assignment, Assignments, CallTable, FileNote, Place, Question, ResolveError, Resolved, Row,
    RowKind, Script, SiteTable, Text, UnitError, UnitFile, UnitFiles, UnitText, Verdict,
    launched_line, note_line, open_lines, print_call, push_blind_line, push_call_lines,
    question_line, read_unit, service_assignments, summary_line,
    unit_line as report_text_unit_line, verdict_line,
};
pub use rows::{VerdictRow, count_open, verdict_rows};
pub use script::read_script;
