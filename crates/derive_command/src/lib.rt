//! The command `derive`: finds the least list of calls that a service must be allowed for a script, and prints it as a drop-in.
//!
//! The command reads the unit and the script, and `trace_profile` derives the list. Then the command prints the drop-in that
//! allows the list, or the line of the first refusal. If the launch is refused with every call allowed, it prints only the line
//! of that launch.
//!
//! `prepare(alloc, &mut shelf, "web.service", "calls.script")?` has the text, and `print` prints it.
#![tactic(auto)]

mod answering;
mod command;
mod refusals;
pub mod trace_profile;

pub use command::prepare;
