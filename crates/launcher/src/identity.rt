//! Makes the steps before the filters: groups, uids and capabilities (credentials(7), capabilities(7)).

ghost use Rattle.std.specs.Prelude.{◌≡◌, [], ◌++◌, IfOk, OnOk};
ghost use Rattle.launcher.specs.Answers.{wanted_of};
ghost use Rattle.launcher.specs.Launch.{group_steps, outside_steps, drop_steps, inherit_steps, user_steps, raise_steps, left_steps, privilege_steps, memory_steps, identity_steps};

use crate::calls::{CallSteps, capset, first_call, prctl};
use crate::kept::{CAPBSET_DROP, with_held};
use exec_settings::{CapSet, Settings};
use kernel_laws::linux_numbers::capabilities::CAP_LAST_CAP;
use kernel_laws::{CallTable, IdList, Payload};
use std::alloc::{AllocError, Global};

/// PR_SET_KEEPCAPS, prctl(2).
const SET_KEEPCAPS: u64 = 8;

/// PR_SET_NO_NEW_PRIVS, prctl(2).
const SET_NO_NEW_PRIVS: u64 = 38;

/// PR_CAP_AMBIENT, prctl(2).
const CAP_AMBIENT: u64 = 47;

/// PR_CAP_AMBIENT_RAISE, prctl(2).
const AMBIENT_RAISE: u64 = 2;

/// PR_SET_MDWE, prctl(2).
const SET_MDWE: u64 = 65;

/// PR_MDWE_REFUSE_EXEC_GAIN, prctl(2).
const REFUSE_EXEC_GAIN: u64 = 1;

// setgroups(2), and setresgid(2) of all three gids.
fn group_steps(
    alloc: Global,
    steps: &mut CallSteps,
    table: &CallTable,
    settings: &Settings,
) -> Result<(), AllocError>
    ensures { OnOk result (steps.new ≡ steps.old ++ group_steps table.now.calls (wanted_of settings.now [])) }
{
    let groups = Payload::Ids(IdList::new(settings.groups.list().to_vec(alloc)?));
    steps.push(first_call(table, "setgroups", 0, 0, 0, groups))?;
    let gid = u64::from(settings.gid);
    steps.push(first_call(table, "setresgid", gid, gid, gid, Payload::Nothing))
}

// Each capability outside a set is dropped from the bounding set, ascending.
fn outside_steps(steps: &mut CallSteps, table: &CallTable, set: CapSet) -> Result<(), AllocError>
    ensures { OnOk result (steps.new ≡ steps.old ++ outside_steps table.now.calls set) }
{
    for cap in 0..CAP_LAST_CAP + 1 {
        let call = prctl(table, CAPBSET_DROP, u64::from(cap), 0);
        steps.push_if(!set.contains(cap), call)?;
    }
    Ok(())
}

// What is neither in the bounding set nor kept is dropped from it.
fn drop_steps(
    steps: &mut CallSteps,
    table: &CallTable,
    settings: &Settings,
) -> Result<(), AllocError>
    ensures { OnOk result (steps.new ≡ steps.old ++ drop_steps table.now.calls (wanted_of settings.now [])) }
{
    let bounding = with_held(settings.keeps_capabilities, settings.bounding);
    outside_steps(steps, table, bounding)
}

// The ambient set and what is kept become inheritable, with all else that the first process has.
fn inherit_steps(
    steps: &mut CallSteps,
    table: &CallTable,
    settings: &Settings,
) -> Result<(), AllocError>
    ensures { OnOk result (steps.new ≡ steps.old ++ inherit_steps table.now.calls (wanted_of settings.now [])) }
{
    let all = CapSet::full();
    let inheritable = with_held(settings.keeps_capabilities, settings.ambient);
    steps.push(capset(table, all, all, inheritable))
}

// Another user than root keeps its permitted set while setresuid(2) takes all three uids.
fn user_steps(
    steps: &mut CallSteps,
    table: &CallTable,
    settings: &Settings,
) -> Result<(), AllocError>
    ensures { OnOk result (steps.new ≡ steps.old ++ user_steps table.now.calls (wanted_of settings.now [])) }
{
    if settings.uid == 0 {
        return Ok(());
    }
    steps.push(prctl(table, SET_KEEPCAPS, 1, 0))?;
    let uid = u64::from(settings.uid);
    steps.push(first_call(table, "setresuid", uid, uid, uid, Payload::Nothing))
}

// Each capability of the ambient set is raised, ascending.
fn raise_steps(
    steps: &mut CallSteps,
    table: &CallTable,
    settings: &Settings,
) -> Result<(), AllocError>
    ensures { OnOk result (steps.new ≡ steps.old ++ raise_steps table.now.calls (wanted_of settings.now [])) }
{
    for cap in 0..CAP_LAST_CAP + 1 {
        let call = prctl(table, CAP_AMBIENT, AMBIENT_RAISE, u64::from(cap));
        steps.push_if(settings.ambient.contains(cap), call)?;
    }
    Ok(())
}

// Another user than root has the ambient set, what is kept, and no more.
fn left_steps(
    steps: &mut CallSteps,
    table: &CallTable,
    settings: &Settings,
) -> Result<(), AllocError>
    ensures { OnOk result (steps.new ≡ steps.old ++ left_steps table.now.calls (wanted_of settings.now [])) }
{
    if settings.uid == 0 {
        return Ok(());
    }
    let left = with_held(settings.keeps_capabilities, settings.ambient);
    steps.push(capset(table, left, left, left))
}

// no_new_privs, where it is in effect.
fn privilege_steps(
    steps: &mut CallSteps,
    table: &CallTable,
    settings: &Settings,
) -> Result<(), AllocError>
    ensures { OnOk result (steps.new ≡ steps.old ++ privilege_steps table.now.calls (wanted_of settings.now [])) }
{
    steps.push_if(settings.no_new_privs, prctl(table, SET_NO_NEW_PRIVS, 1, 0))
}

// The mark that refuses memory to be both written and executed, where the settings ask for it.
fn memory_steps(
    steps: &mut CallSteps,
    table: &CallTable,
    settings: &Settings,
) -> Result<(), AllocError>
    ensures { OnOk result (steps.new ≡ steps.old ++ memory_steps table.now.calls (wanted_of settings.now [])) }
{
    steps.push_if(settings.mdwe, prctl(table, SET_MDWE, REFUSE_EXEC_GAIN, 0))
}

/// Returns the calls before the filters: groups and gids, the bounding set, the uids, the ambient set, no_new_privs, the mark that
/// refuses memory.
pub fn identity_steps(
    alloc: Global,
    table: &CallTable,
    settings: &Settings,
) -> Result<CallSteps, AllocError>
    ensures calls_before_the_filters { IfOk result (λ steps. steps ≡ identity_steps table.now.calls (wanted_of settings.now [])) }
{
    let mut steps = CallSteps::new(alloc);
    group_steps(alloc, &mut steps, table, settings)?;
    drop_steps(&mut steps, table, settings)?;
    inherit_steps(&mut steps, table, settings)?;
    user_steps(&mut steps, table, settings)?;
    raise_steps(&mut steps, table, settings)?;
    left_steps(&mut steps, table, settings)?;
    privilege_steps(&mut steps, table, settings)?;
    memory_steps(&mut steps, table, settings)?;
    Ok(steps)
}
