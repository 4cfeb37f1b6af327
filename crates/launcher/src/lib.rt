//! Starts a service in the modelled kernel, step by step, as its settings and the plan of its mounts say
//! (systemd.exec(5), capabilities(7), seccomp(2)).
//!
//! `launch(alloc, &settings, plan.list(), &calls, &site)?.world` is the world in which the program runs, and `steps`
//! the number of steps that the launch took. `exec_settings` makes the settings, `mount_plan` the plan, and
//! `seccomp_compile` the programs of the filters. Each call is a step of `kernel_model`.
#![tactic(auto)]

mod calls;
mod error;
mod filters;
mod identity;
mod kept;
mod launched;
mod launching;
pub mod laws;
mod mounting;
mod privileged;
mod running;
mod steps;

pub use error::LaunchError;
pub use exec_settings::{
    Filter, Mentioned, NameError, Resolved, Settings, SettingsError, SiteError, SiteTable, Text,
    UnitError, UnitFile, UnitFiles, UnitName, UnitText, Version, is_read, read_site, read_unit,
    settings,
};
pub use filters::{FilterProgram, FilterPrograms, compile_all};
pub use kernel_laws::question_types::{CallKind, NamespaceType, Power, Wish};
pub use kernel_laws::{CallData, CallTable, CallsError, Decision, Insn, linux_numbers, read_calls};
pub use launched::Launched;
pub use launching::launch;
pub use mount_plan::{MountSteps, PlanError, plan};
