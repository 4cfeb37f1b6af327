//! Makes all calls of a launch in their order: first the calls that set ids and capabilities, then the calls that install the
//! filters. The last calls give up what was kept for the filters, and execute the program.

ghost use Rattle.std.specs.Prelude.{◌≡◌, [], ◌++◌, IfOk, OnOk};
ghost use Rattle.launcher.specs.Answers.{given_bytes, wanted_of};
ghost use Rattle.launcher.specs.Launch.{call_steps, filter_steps, last_steps};

use crate::calls::{CallSteps, first_call};
use crate::filters::{FilterProgram, FilterPrograms};
use crate::identity::identity_steps;
use crate::kept::give_up_steps;
use exec_settings::Settings;
use kernel_laws::{Bytes, CallTable, Payload};
use std::alloc::{AllocError, Global};

/// SECCOMP_SET_MODE_FILTER, seccomp(2).
const SET_MODE_FILTER: u64 = 1;

// Each program is installed, in their order.
fn filter_steps(
    alloc: Global,
    steps: &mut CallSteps,
    table: &CallTable,
    filters: &[FilterProgram],
) -> Result<(), AllocError>
    ensures { OnOk result (steps.new ≡ steps.old ++ filter_steps table.now.calls (given_bytes filters.now)) }
{
    for filter in filters {
        let code = Payload::Code(Bytes::new(filter.program.bytes(alloc)?));
        steps.push(first_call(table, "seccomp", SET_MODE_FILTER, 0, 0, code))?;
    }
    Ok(())
}

// What was kept is given up, and the program runs.
fn last_steps(
    alloc: Global,
    steps: &mut CallSteps,
    table: &CallTable,
    settings: &Settings,
) -> Result<(), AllocError>
    ensures { OnOk result (steps.new ≡ steps.old ++ last_steps table.now.calls (wanted_of settings.now [])) }
{
    give_up_steps(steps, table, settings)?;
    let program = Payload::OnePath(settings.program.copy(alloc)?);
    steps.push(first_call(table, "execve", 0, 0, 0, program))
}

/// The calls of a launch by these programs.
pub fn call_steps(
    alloc: Global,
    table: &CallTable,
    settings: &Settings,
    filters: &FilterPrograms,
) -> Result<CallSteps, AllocError>
    ensures calls_by_these_programs { IfOk result (λ steps. steps ≡ call_steps table.now.calls (wanted_of settings.now (given_bytes filters.now))) }
{
    let mut steps = identity_steps(alloc, table, settings)?;
    filter_steps(alloc, &mut steps, table, filters.list())?;
    last_steps(alloc, &mut steps, table, settings)?;
    Ok(steps)
}
