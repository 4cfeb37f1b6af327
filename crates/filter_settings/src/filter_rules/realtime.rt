//! Makes the rules of RestrictRealtime=: only the ordinary scheduling policies are left.
ghost use Rattle.std.specs.Prelude.{◌≡◌, IfOk};
ghost use Rattle.filter_settings.specs.filter_rules.RealtimeChoice.{realtime_choice};

use crate::filter_rules::choice::{Choice, allowed_values, whole};
use call_rules::Tests;
use dropin_merge::Version;
use std::alloc::{AllocError, Global};

/// SCHED_OTHER, sched(7).
const SCHED_OTHER: u32 = 0;

/// SCHED_BATCH, sched(7).
const SCHED_BATCH: u32 = 3;

/// SCHED_IDLE, sched(7).
const SCHED_IDLE: u32 = 5;

/// Returns what is done to a call of this name, where it sets a policy, which is argument 1.
pub fn realtime_choice(
    alloc: Global,
    systemd: Option<Version>,
    name: &str,
) -> Result<Option<Choice>, AllocError>
    ensures by_the_call { IfOk result (λ choice. choice ≡ realtime_choice systemd name.now) }
{
    if name != "sched_setscheduler" {
        return Ok(None);
    }
    let mut ordinary = Vec::new(alloc);
    ordinary.push(whole(1, SCHED_OTHER))?;
    ordinary.push(whole(1, SCHED_BATCH))?;
    ordinary.push(whole(1, SCHED_IDLE))?;
    Ok(Some(allowed_values(systemd, 1, Tests::new(ordinary))))
}
