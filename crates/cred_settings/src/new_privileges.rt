//! Reads NoNewPrivileges= (systemd.exec(5)).
ghost use Rattle.std.specs.Prelude.{◌≡◌, IfOk};
ghost use Rattle.cred_settings.specs.NewPrivileges.{is_in_effect_in, is_keeping, is_set_by, new_privileges_notes};

use dropin_merge::Resolved;
use dropin_merge::linux_numbers::capabilities::CAP_SYS_ADMIN;
use dropin_merge::unit_values::{Said, flag_of_key};
use site_table::{CapSet, Version};
use std::alloc::{AllocError, Global};

/// Returns whether a service keeps CAP_SETPCAP and CAP_SYS_ADMIN until its filters are installed, and gives them up then.
///
/// Only systemd 257 starts a service so. The service is filtered, its uid is not 0, and its filters let it give up
/// capabilities. `is_filtered` says that a filter is on, or a setting that this version counts as a filter.
pub fn keeps_capabilities(
    systemd: Option<Version>,
    is_filtered: bool,
    uid: u32,
    may_give_up: bool,
) -> bool
    ensures by_the_version { result ≡ is_keeping systemd is_filtered uid may_give_up }
{
    matches!(systemd, Some(Version::V257)) && is_filtered && uid != 0 && may_give_up
}

/// Returns whether NoNewPrivileges= is in effect. It is if it is set, or if a filter is on for a service whose uid is not
/// 0 and whose ambient set lacks CAP_SYS_ADMIN.
///
/// In a version of systemd the ambient set does not matter, and `is_filtered` decides instead of `has_filter`. It says that
/// a filter is on, or a setting that this version counts as a filter. A service that `keeps` capabilities until its filters
/// are installed needs no_new_privs only if it is set.
pub fn no_new_privs(
    systemd: Option<Version>,
    is_set: bool,
    has_filter: bool,
    is_filtered: bool,
    uid: u32,
    ambient: CapSet,
    keeps: bool,
) -> bool
    ensures set_or_implied { result ≡ is_in_effect_in systemd is_set has_filter is_filtered uid ambient keeps }
{
    let is_implied = match systemd {
        Some(_) => is_filtered && !keeps,
        None => has_filter && !ambient.contains(CAP_SYS_ADMIN),
    };
    is_set || is_implied && uid != 0
}

/// Reads whether NoNewPrivileges= is set. The last value that can be read decides; an empty value means false, and so
/// does a missing one. Notes name values that cannot be expanded, and then values that cannot be read.
pub fn is_no_new_privileges_set(alloc: Global, unit: &Resolved) -> Result<Said<bool>, AllocError>
    ensures last_value_decides { IfOk result (λ said. said.what ≡ is_set_by unit.now) }
    ensures noted { IfOk result (λ said. said.notes.items ≡ new_privileges_notes unit.now) }
{
    flag_of_key(alloc, unit, "NoNewPrivileges")
}
