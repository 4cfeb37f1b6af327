//! Says what a launch keeps until the filters are installed, and gives it up then (capabilities(7), seccomp(2)).

ghost use Rattle.std.specs.Prelude.{◌≡◌, [], ◌++◌, OnOk};
ghost use Rattle.launcher.specs.Answers.{wanted_of};
ghost use Rattle.launcher.specs.Launch.{held, with_held, given_up_steps, give_up_steps};

use crate::calls::{CallSteps, capset, prctl};
use exec_settings::{CapSet, Settings};
use kernel_laws::CallTable;
use kernel_laws::linux_numbers::capabilities::{CAP_LAST_CAP, CAP_SETPCAP, CAP_SYS_ADMIN};
use std::alloc::AllocError;

/// PR_CAPBSET_DROP, prctl(2).
pub const CAPBSET_DROP: u64 = 24;

// The capabilities that a launch can keep.
fn held() -> CapSet
    ensures { result ≡ held }
{
    let none = CapSet::empty();
    let setpcap = none.with(CAP_SETPCAP);
    let admin = none.with(CAP_SYS_ADMIN);
    setpcap.union(admin)
}

/// The set with what the launch keeps, if it keeps anything.
pub fn with_held(keeps: bool, set: CapSet) -> CapSet
    ensures adds_what_is_kept { result ≡ with_held keeps set }
{
    if keeps { set.union(held()) } else { set }
}

// Each capability of the set is dropped from the bounding set, ascending.
fn given_up_steps(
    steps: &mut CallSteps,
    table: &CallTable,
    given_up: CapSet,
) -> Result<(), AllocError>
    ensures { OnOk result (steps.new ≡ steps.old ++ given_up_steps table.now.calls given_up) }
{
    for cap in 0..CAP_LAST_CAP + 1 {
        let call = prctl(table, CAPBSET_DROP, u64::from(cap), 0);
        steps.push_if(given_up.contains(cap), call)?;
    }
    Ok(())
}

/// Adds the steps after the filters that give up what was kept. What the bounding set lacks is dropped from it. Then the
/// ambient set alone is permitted and effective, and what the bounding set has stays inheritable.
pub fn give_up_steps(
    steps: &mut CallSteps,
    table: &CallTable,
    settings: &Settings,
) -> Result<(), AllocError>
    ensures gives_up { OnOk result (steps.new ≡ steps.old ++ give_up_steps table.now.calls (wanted_of settings.now [])) }
{
    if !settings.keeps_capabilities {
        return Ok(());
    }
    given_up_steps(steps, table, held().minus(settings.bounding))?;
    let ambient = settings.ambient;
    let inheritable = ambient.union(held().cut(settings.bounding));
    steps.push(capset(table, ambient, ambient, inheritable))
}
