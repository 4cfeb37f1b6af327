//! Finds the capabilities that settings take from the bounding set (systemd.exec(5), Sandboxing; capabilities(7)).
ghost use Rattle.std.specs.Prelude.{◌≡◌};
ghost use Rattle.exec_settings.specs.Bounding.{clock_caps, device_caps, log_caps, module_caps, only_if, taken_caps};

use cred_settings::CapSet;
use cred_settings::linux_numbers::capabilities::{
    CAP_MKNOD, CAP_SYS_MODULE, CAP_SYS_RAWIO, CAP_SYS_TIME, CAP_SYSLOG, CAP_WAKE_ALARM,
};
use filter_settings::filter_rules::FilterSettings;

// Returns the set if the setting that takes it is on, and else the empty set.
fn only_if(on: bool, set: CapSet) -> CapSet
    ensures { result ≡ only_if on set }
{
    if on { set } else { CapSet::empty() }
}

// Returns the capabilities that ProtectClock= takes.
fn clock_caps() -> CapSet
    ensures { result ≡ clock_caps }
{
    CapSet::empty().with(CAP_SYS_TIME).with(CAP_WAKE_ALARM)
}

// Returns the capabilities that PrivateDevices= takes.
fn device_caps() -> CapSet
    ensures { result ≡ device_caps }
{
    CapSet::empty().with(CAP_MKNOD).with(CAP_SYS_RAWIO)
}

// Returns the capability that ProtectKernelModules= takes.
fn module_caps() -> CapSet
    ensures { result ≡ module_caps }
{
    CapSet::empty().with(CAP_SYS_MODULE)
}

// Returns the capability that ProtectKernelLogs= takes.
fn log_caps() -> CapSet
    ensures { result ≡ log_caps }
{
    CapSet::empty().with(CAP_SYSLOG)
}

/// Returns the capabilities that the settings take from a bounding set. ProtectClock= takes CAP_SYS_TIME and
/// CAP_WAKE_ALARM, PrivateDevices= CAP_MKNOD and CAP_SYS_RAWIO, ProtectKernelModules= CAP_SYS_MODULE, and
/// ProtectKernelLogs= CAP_SYSLOG.
#[tactic(auto, unfolding(crate::specs::Bounding::taken_caps))]
pub fn taken_caps(settings: &FilterSettings) -> CapSet
    ensures by_the_settings { result ≡ taken_caps settings.now }
{
    let protected = only_if(settings.protect_clock, clock_caps()).union(only_if(
        settings.private_devices,
        device_caps(),
    ));
    let kernel = only_if(settings.protect_kernel_modules, module_caps()).union(only_if(
        settings.protect_kernel_logs,
        log_caps(),
    ));
    protected.union(kernel)
}
