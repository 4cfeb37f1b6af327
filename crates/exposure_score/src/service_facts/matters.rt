//! How bad a service is by what one test looks at.

ghost use Rattle.std.specs.Prelude.{◌≡◌};
ghost use Rattle.exposure_score.specs.service_facts.Badness.{one_if, is_on, system_badness, home_badness, has_ambient};

use crate::service_facts::lines::Protection;
use crate::service_facts::sandbox::Sandbox;
use exec_settings::{CapSet, HomeProtection, SystemProtection};

/// Returns 1 if true, 0 if false.
pub fn one_if(bad: bool) -> u32
    ensures counts_what_is_bad { result ≡ one_if bad }
{
    u32::from(bad)
}

/// Returns whether the protection is on.
pub fn is_on(sandbox: &Sandbox, protection: Protection) -> bool
    ensures as_set { result ≡ is_on sandbox.now protection }
{
    match protection {
        Protection::PrivateDevices => sandbox.filters.private_devices,
        Protection::PrivateTmp => sandbox.protections.private_tmp,
        Protection::ProtectClock => sandbox.filters.protect_clock,
        Protection::ProtectControlGroups => sandbox.protections.protect_control_groups,
        Protection::ProtectHostname => sandbox.filters.protect_hostname,
        Protection::ProtectKernelLogs => sandbox.filters.protect_kernel_logs,
        Protection::ProtectKernelModules => sandbox.filters.protect_kernel_modules,
        Protection::ProtectKernelTunables => sandbox.protections.protect_kernel_tunables,
        Protection::LockPersonality => sandbox.filters.lock_personality,
        Protection::MemoryDenyWriteExecute => sandbox.filters.memory_deny_write_execute,
        Protection::RestrictRealtime => sandbox.filters.restrict_realtime,
        Protection::RestrictSuidSgid => sandbox.filters.restrict_suid_sgid,
    }
}

/// How bad ProtectSystem= is.
pub fn system_badness(system: SystemProtection) -> u32
    ensures by_the_choice { result ≡ system_badness system }
{
    match system {
        SystemProtection::No => 10,
        SystemProtection::Yes => 8,
        SystemProtection::Full => 3,
        SystemProtection::Strict => 0,
    }
}

/// How bad ProtectHome= is.
pub fn home_badness(home: HomeProtection) -> u32
    ensures by_the_choice { result ≡ home_badness home }
{
    match home {
        HomeProtection::No => 10,
        HomeProtection::ReadOnly => 5,
        HomeProtection::Tmpfs => 1,
        HomeProtection::Yes => 0,
    }
}

/// Returns whether there is an ambient capability.
pub fn has_ambient(sandbox: &Sandbox) -> bool
    ensures some_ambient { result ≡ has_ambient sandbox.now }
{
    sandbox.ambient != CapSet::empty()
}
