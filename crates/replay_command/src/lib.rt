//! Runs the command `replay`, which prints the answers of a unit's sandbox to the calls of a script.
//!
//! The settings come from the inputs of the unit, its mounts are planned, and it is launched in the modelled kernel.
//! Then the calls of the script are made in its world, and the line of each is printed as it is made. A refused call
//! is answered with its errno, and the next is made.
//!
//! The crate uses `asked_service` for the launch, whose world makes each call by the kernel's step, and `script_text` for
//! scripts and printed calls.
//!
//! `answer(alloc, &mut shelf, "web.service", "calls.script", &mut out)` runs the command, and says how it ended.
#![tactic(auto)]

mod command;
mod launching;
mod lines;
mod preparing;
mod printing;
mod ready;
mod replaying;

pub use asked_service::VerdictRow;
pub use command::answer;
