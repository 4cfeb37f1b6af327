//! Gives the verdict on each question about a launched service, and says which folders the service is blind to.
//!
//! A question is denied or open. The ceiling of the launched world and the calls that its filters let through decide.
//! No list of calls reaches a denied question, of however many processes. A service cannot find out what lies below a
//! folder that it is blind to ([`laws`]).
//!
//! `verdict(&launched, &ceiling(alloc, &launched)?, &Question::MapWx)` is open if mmap(2) passes. A verdict takes no
//! memory. The crate uses `ceilings`, `reach_paths` and `questions`.
#![tactic(auto)]

mod blindness;
mod ids;
mod judging;
pub mod laws;
mod lines;
mod open;
mod rows;
mod two_sites;

pub use blindness::blind;
pub use ceilings::{
    Ceiling, FilterProgram, Flags, LaunchError, Launched, Mentioned, MountStep, MountSteps,
    MountTable, PlanError, Settings, SettingsError, Version, What,
    blindness as kernel_ways_blindness, ceiling, is_read, launch, openness, plan, settings,
};
pub use judging::verdict;
pub use questions::{Call, Reply, World, fits};
pub use two_sites::alike;
