//! Decides what AmbientCapabilities= and NoNewPrivileges= do beside other settings (systemd.exec(5)).
ghost use Rattle.std.specs.Prelude.{◌≡◌, ◌||◌, IfOk};
ghost use Rattle.exec_settings.specs.Filtered.{counts_as_filter, has_value};
ghost use Rattle.exec_settings.specs.Settings.{ambient_within};

use cred_settings::{CapSet, Resolved, Version, flag_of_key, in_force, values_of_key};
use std::alloc::{AllocError, Global};

/// Returns the ambient set. A version of systemd takes only the capabilities of AmbientCapabilities= that are in the
/// bounding set.
pub fn ambient_within(systemd: Option<Version>, ambient: CapSet, bounding: CapSet) -> CapSet
    ensures cut_to_the_bounding_set { result ≡ ambient_within systemd ambient bounding }
{
    if systemd.is_some() {
        ambient.cut(bounding)
    } else {
        ambient
    }
}

/// Returns whether one of the three is true.
pub fn any_of_three(one: bool, two: bool, three: bool) -> bool
    ensures one_is_true { result ≡ (one || (two || three)) }
{
    one || two || three
}

// Returns whether the key has a value in force.
fn has_value(alloc: Global, unit: &Resolved, key: &str) -> Result<bool, AllocError>
    ensures { IfOk result (λ has. has ≡ has_value unit.now key.now) }
{
    let values = values_of_key(alloc, unit, key)?.what;
    Ok(!in_force(values.as_slice()).is_empty())
}

/// Returns whether a setting is on that a version of systemd counts as a filter of system calls. These settings are
/// ProtectKernelTunables=, SystemCallArchitectures= and SystemCallLog=. They count even if the model has no filter for them.
#[tactic(auto, unfolding(crate::specs::Filtered::counts_as_filter))]
pub fn counts_as_filter(alloc: Global, unit: &Resolved) -> Result<bool, AllocError>
    ensures one_of_three { IfOk result (λ counts. counts ≡ counts_as_filter unit.now) }
{
    let tunables = flag_of_key(alloc, unit, "ProtectKernelTunables")?.what;
    let architectures = has_value(alloc, unit, "SystemCallArchitectures")?;
    let log = has_value(alloc, unit, "SystemCallLog")?;
    Ok(tunables || architectures || log)
}
