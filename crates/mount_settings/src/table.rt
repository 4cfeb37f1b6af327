//! Lists the paths that each protection changes (systemd.exec(5), Sandboxing).
ghost use Rattle.std.specs.Prelude.{◌≡◌, ◌++◌, filter, flat_map, OnOk};
ghost use Rattle.mount_settings.specs.Effects.{stands};
ghost use Rattle.mount_settings.specs.Table.{by_system, home_effect, by_home, by_group};
ghost use Rattle.mount_settings.specs.Implied.{joined, by_files, by_kernel};

use crate::effects::{Effect, bring};
use crate::protections::{HomeProtection, Protections, Switches, SystemProtection};
use path_settings::Mention;
use site_table::SiteTable;
use std::alloc::{AllocError, Global};

const BARE: Effect = Effect::Empty { read_only: true };

const FRESH: Effect = Effect::Empty { read_only: false };

const SYSTEM: &[&str] = &["/usr", "/boot", "/efi"];

const SYSTEM_AND_ETC: &[&str] = &["/usr", "/boot", "/efi", "/etc"];

const KERNELS: &[&str] = &["/dev", "/proc", "/sys"];

const HOMES: &[&str] = &["/home", "/root", "/run/user"];

const TEMPORARY: &[&str] = &["/tmp", "/var/tmp"];

const DEVICES: &[&str] = &["/dev"];

const HARMLESS_DEVICES: &[&str] = &[
    "/dev/null",
    "/dev/zero",
    "/dev/full",
    "/dev/random",
    "/dev/urandom",
    "/dev/tty",
];

const TUNABLES: &[&str] = &[
    "/proc/sys",
    "/sys",
    "/proc/sysrq-trigger",
    "/proc/latency_stats",
    "/proc/acpi",
    "/proc/timer_stats",
    "/proc/fs",
    "/proc/irq",
];

const MEMORY: &[&str] = &["/proc/kallsyms", "/proc/kcore"];

const MODULES: &[&str] = &["/usr/lib/modules"];

const LOGS: &[&str] = &["/proc/kmsg", "/dev/kmsg"];

const CONTROL_GROUPS: &[&str] = &["/sys/fs/cgroup"];

// Adds the mentions of ProtectSystem=.
fn bring_system(
    alloc: Global,
    site: &SiteTable,
    system: SystemProtection,
    mentions: &mut Vec<Mention>,
) -> Result<(), AllocError>
    ensures { OnOk result (mentions.new.items ≡ mentions.old.items ++ filter (stands site.now) (by_system system)) }
{
    match system {
        SystemProtection::No => Ok(()),
        SystemProtection::Yes => bring(alloc, site, Effect::ReadOnly, SYSTEM, mentions),
        SystemProtection::Full => bring(alloc, site, Effect::ReadOnly, SYSTEM_AND_ETC, mentions),
        SystemProtection::Strict => {
            bring(alloc, site, Effect::ReadOnly, &["/"], mentions)?;
            bring(alloc, site, Effect::Writable, KERNELS, mentions)
        }
    }
}

// Returns the effect of ProtectHome= at the homes.
fn home_effect(home: HomeProtection) -> Option<Effect>
    ensures { result ≡ home_effect home }
{
    match home {
        HomeProtection::No => None,
        HomeProtection::Yes => Some(Effect::Hidden),
        HomeProtection::ReadOnly => Some(Effect::ReadOnly),
        HomeProtection::Tmpfs => Some(BARE),
    }
}

// Adds the mentions of ProtectHome=.
fn bring_home(
    alloc: Global,
    site: &SiteTable,
    home: HomeProtection,
    mentions: &mut Vec<Mention>,
) -> Result<(), AllocError>
    ensures { OnOk result (mentions.new.items ≡ mentions.old.items ++ filter (stands site.now) (by_home home)) }
{
    match home_effect(home) {
        Some(effect) => bring(alloc, site, effect, HOMES, mentions),
        None => Ok(()),
    }
}

/// Adds the mentions of each group that is on. A group has an effect at some paths.
pub(crate) fn bring_groups(
    alloc: Global,
    site: &SiteTable,
    groups: &[(bool, Effect, &[&str])],
    mentions: &mut Vec<Mention>,
) -> Result<(), AllocError>
    ensures { OnOk result (mentions.new.items ≡ mentions.old.items ++ filter (stands site.now) (flat_map by_group groups.now)) }
{
    for group in groups {
        if group.0 {
            bring(alloc, site, group.1, group.2, mentions)?;
        }
    }
    Ok(())
}

/// Adds the mentions of ProtectSystem=, ProtectHome=, PrivateTmp= and PrivateDevices=.
pub(crate) fn bring_files(
    alloc: Global,
    site: &SiteTable,
    switches: Switches,
    protections: Protections,
    mentions: &mut Vec<Mention>,
) -> Result<(), AllocError>
    ensures { OnOk result (mentions.new.items ≡ mentions.old.items ++ filter (stands site.now) (joined (by_files switches protections))) }
{
    bring_system(alloc, site, protections.protect_system, mentions)?;
    bring_home(alloc, site, protections.protect_home, mentions)?;
    let devices = switches.private_devices;
    let groups = [
        (protections.private_tmp, FRESH, TEMPORARY),
        (devices, BARE, DEVICES),
        (devices, Effect::NotExecutable, DEVICES),
        (devices, Effect::Shown, HARMLESS_DEVICES),
    ];
    bring_groups(alloc, site, &groups, mentions)
}

/// Adds the mentions of ProtectKernelTunables=, ProtectKernelModules=, ProtectKernelLogs= and ProtectControlGroups=.
pub(crate) fn bring_kernel(
    alloc: Global,
    site: &SiteTable,
    switches: Switches,
    protections: Protections,
    mentions: &mut Vec<Mention>,
) -> Result<(), AllocError>
    ensures { OnOk result (mentions.new.items ≡ mentions.old.items ++ filter (stands site.now) (joined (by_kernel switches protections))) }
{
    let tunables = protections.protect_kernel_tunables;
    let control_groups = protections.protect_control_groups;
    let groups = [
        (tunables, Effect::ReadOnly, TUNABLES),
        (tunables, Effect::Hidden, MEMORY),
        (switches.protect_kernel_modules, Effect::Hidden, MODULES),
        (switches.protect_kernel_logs, Effect::Hidden, LOGS),
        (control_groups, Effect::ReadOnly, CONTROL_GROUPS),
    ];
    bring_groups(alloc, site, &groups, mentions)
}
