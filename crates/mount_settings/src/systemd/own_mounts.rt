//! Tests if a service has mounts of its own (systemd.exec(5), Sandboxing).
ghost use Rattle.std.specs.Prelude.{◌≡◌};
ghost use Rattle.mount_settings.specs.systemd.OwnMounts.{writes_paths, protects_files, protects_kernel, asks_newer, asks_mounts, has_own_mounts};

use crate::protections::{HomeProtection, Protections, Switches, SystemProtection};
use crate::systemd::keys::FurtherKeys;
use crate::systemd::rows::is_newer;
use crate::written::WrittenPath;
use dropin_merge::Version;

// Returns whether some written path is not a folder.
fn writes_paths(paths: &[WrittenPath]) -> bool
    ensures { result ≡ writes_paths paths.now }
{
    paths.iter().any(|path| !path.key.is_implied())
}

fn protects_files(switches: Switches, protections: Protections) -> bool
    ensures { result ≡ protects_files switches protections }
{
    !matches!(protections.protect_system, SystemProtection::No)
        || !matches!(protections.protect_home, HomeProtection::No)
        || protections.private_tmp
        || switches.private_devices
}

fn protects_kernel(switches: Switches, protections: Protections) -> bool
    ensures { result ≡ protects_kernel switches protections }
{
    protections.protect_kernel_tunables
        || switches.protect_kernel_modules
        || switches.protect_kernel_logs
        || protections.protect_control_groups
}

fn asks_newer(keys: FurtherKeys) -> bool
    ensures { result ≡ asks_newer keys }
{
    keys.private_pids || keys.bind_log_sockets || keys.own_network && keys.private_mounts.is_unset()
}

fn asks_mounts(version: Version, keys: FurtherKeys) -> bool
    ensures { result ≡ asks_mounts version keys }
{
    keys.protect_proc
        || keys.proc_subset
        || keys.private_mounts.is_yes()
        || keys.private_ipc
        || keys.log_namespace
        || is_newer(version) && asks_newer(keys)
}

/// Returns whether a service has mounts of its own.
pub(crate) fn has_own_mounts(
    version: Version,
    switches: Switches,
    protections: Protections,
    keys: FurtherKeys,
    paths: &[WrittenPath],
) -> bool
    ensures { result ≡ has_own_mounts version switches protections keys paths.now }
{
    writes_paths(paths)
        || protects_files(switches, protections)
        || protects_kernel(switches, protections)
        || asks_mounts(version, keys)
}
