//! Lists the paths that each protection changes in systemd 252 and 257 (systemd.exec(5), Sandboxing).
ghost use Rattle.std.specs.Prelude.{◌≡◌, ◌++◌, [], ◌&&◌, ◌||◌, map, filter, flat_map, OnOk};
ghost use Rattle.std.specs.List.{cons_option};
ghost use Rattle.mount_settings.specs.systemd.Mentions.{stands};
ghost use Rattle.mount_settings.specs.systemd.Rows.{is_newer, reads_files, is_full, is_strict, hides_homes, reads_homes, empties_homes, has_api, has_own_sysfs, disconnects_tmp, rows_on, table, entry_at, asks_for, by_row, by_lent};

use crate::effects::has_row;
use crate::protections::{HomeProtection, Protections, Switches, SystemProtection};
use crate::systemd::keys::FurtherKeys;
use dropin_merge::Version;
use path_settings::read_setting_path;
use path_settings::systemd::{MountEntry, MountMode};
use site_table::SiteTable;
use std::alloc::{AllocError, Global};

const FILES: &[&str] = &["/usr", "/boot", "/efi"];

const MERGED: &[&str] = &["/lib", "/lib64", "/bin", "/sbin"];

const CONFIGURATION: &[&str] = &["/etc"];

const ROOT: &[&str] = &["/"];

const LEFT_BY_STRICT: &[&str] = &["/proc", "/sys", "/dev", "/home", "/run/user", "/root"];

const HOMES: &[&str] = &["/home", "/run/user", "/root"];

const TEMPORARY: &[&str] = &["/tmp", "/var/tmp"];

const DEVICES: &[&str] = &["/dev"];

const DEVICES_LEFT: &[&str] = &[
    "/dev/null",
    "/dev/zero",
    "/dev/full",
    "/dev/random",
    "/dev/urandom",
    "/dev/tty",
    "/dev/ptmx",
    "/dev/pts",
    "/dev/shm",
    "/dev/mqueue",
    "/dev/hugepages",
];

const VARIABLES: &[&str] = &[
    "/proc/acpi",
    "/proc/apm",
    "/proc/asound",
    "/proc/bus",
    "/proc/fs",
    "/proc/irq",
    "/proc/latency_stats",
    "/proc/mtrr",
    "/proc/scsi",
    "/proc/sys",
    "/proc/sysrq-trigger",
    "/proc/timer_stats",
];

const MEMORY: &[&str] = &["/proc/kallsyms", "/proc/kcore"];

const KERNEL_OBJECTS: &[&str] = &[
    "/sys",
    "/sys/fs/bpf",
    "/sys/kernel/debug",
    "/sys/kernel/tracing",
];

const LEFT_BY_TUNABLES: &[&str] = &["/sys/fs/cgroup", "/sys/fs/selinux"];

const MODULES: &[&str] = &["/usr/lib/modules"];

const MERGED_MODULES: &[&str] = &["/lib/modules"];

const LOGS: &[&str] = &["/proc/kmsg", "/dev/kmsg"];

const GROUPS: &[&str] = &["/sys/fs/cgroup"];

const PROCESSES: &[&str] = &["/proc"];

const RUN: &[&str] = &["/run"];

const SYSFS: &[&str] = &["/sys"];

const HOSTNAME: &[&str] = &["/proc/sys/kernel/hostname", "/proc/sys/kernel/domainname"];

const CREDENTIALS: &[&str] = &["/run/credentials"];

/// Returns whether the version is 257.
pub(crate) fn is_newer(version: Version) -> bool
    ensures { result ≡ is_newer version }
{
    matches!(version, Version::V257)
}

fn reads_files(system: SystemProtection) -> bool
    ensures { result ≡ reads_files system }
{
    matches!(system, SystemProtection::Yes | SystemProtection::Full)
}

fn is_full(system: SystemProtection) -> bool
    ensures { result ≡ is_full system }
{
    matches!(system, SystemProtection::Full)
}

fn is_strict(system: SystemProtection) -> bool
    ensures { result ≡ is_strict system }
{
    matches!(system, SystemProtection::Strict)
}

fn hides_homes(home: HomeProtection) -> bool
    ensures { result ≡ hides_homes home }
{
    matches!(home, HomeProtection::Yes)
}

fn reads_homes(home: HomeProtection) -> bool
    ensures { result ≡ reads_homes home }
{
    matches!(home, HomeProtection::ReadOnly)
}

fn empties_homes(home: HomeProtection) -> bool
    ensures { result ≡ empties_homes home }
{
    matches!(home, HomeProtection::Tmpfs)
}

// Returns whether the service has its own mounts of the kernel's file systems and of /run.
fn has_api(version: Version, protections: Protections, keys: FurtherKeys) -> bool
    ensures { result ≡ has_api version protections keys }
{
    protections.protect_control_groups
        || protections.protect_kernel_tunables
        || keys.protect_proc
        || keys.proc_subset
        || keys.mount_api_vfs
        || is_newer(version) && keys.private_pids
}

// Returns whether the service has its own mount of /sys, which shows its own network.
fn has_own_sysfs(version: Version, keys: FurtherKeys) -> bool
    ensures { result ≡ has_own_sysfs version keys }
{
    is_newer(version) && keys.own_network
}

// Returns whether the folders for temporary files are on a file system of their own.
fn disconnects_tmp(version: Version, keys: FurtherKeys) -> bool
    ensures { result ≡ disconnects_tmp version keys }
{
    is_newer(version) && !keys.own_tmp.is_plain()
}

// Says which rows of the table are on.
#[derive(Clone, Copy)]
pub(crate) struct RowsOn {
    files: bool,
    merged: bool,
    configuration: bool,
    all: bool,
    homes_hidden: bool,
    homes_read: bool,
    homes_fresh: bool,
    homes_empty: bool,
    temporary: bool,
    disconnected: bool,
    devices: bool,
    tunables: bool,
    modules: bool,
    merged_modules: bool,
    logs: bool,
    groups_read: bool,
    groups_left: bool,
    api: bool,
    is_left: bool,
    sysfs: bool,
    hostname: bool,
    credentials: bool,
}

fn both(one: bool, other: bool) -> bool
    ensures { result ≡ one && other }
{
    one && other
}

// Returns which rows are on.
fn rows_on(
    version: Version,
    switches: Switches,
    protections: Protections,
    keys: FurtherKeys,
) -> RowsOn
    ensures { result ≡ rows_on version switches protections keys }
{
    let is_older = !is_newer(version);
    let system = protections.protect_system;
    let home = protections.protect_home;
    let tunables = protections.protect_kernel_tunables;
    let modules = switches.protect_kernel_modules;
    let frees_groups = keys.control_groups.is_private();
    let apart = disconnects_tmp(version, keys);
    RowsOn {
        files: reads_files(system),
        merged: both(is_older, reads_files(system)),
        configuration: is_full(system),
        all: is_strict(system),
        homes_hidden: hides_homes(home),
        homes_read: reads_homes(home),
        homes_fresh: both(is_older, empties_homes(home)),
        homes_empty: both(is_newer(version), empties_homes(home)),
        temporary: both(protections.private_tmp, !apart),
        disconnected: both(protections.private_tmp, apart),
        devices: switches.private_devices,
        tunables,
        modules,
        merged_modules: both(is_older, modules),
        logs: switches.protect_kernel_logs,
        groups_read: both(protections.protect_control_groups, !frees_groups),
        groups_left: frees_groups,
        api: has_api(version, protections, keys),
        is_left: is_newer(version),
        sysfs: has_own_sysfs(version, keys),
        hostname: keys.protect_hostname,
        credentials: !keys.credentials,
    }
}

// Adds the entry of a mode at a path, if the text is a path and the site has a row for it.
fn bring_one(
    alloc: Global,
    site: &SiteTable,
    mode: &MountMode,
    text: &str,
    entries: &mut Vec<MountEntry>,
) -> Result<(), AllocError>
    ensures { OnOk result (entries.new.items ≡ entries.old.items ++ filter (stands site.now) (cons_option (entry_at mode.now text.now) [])) }
{
    let Some(path) = read_setting_path(alloc, text)? else {
        return Ok(());
    };
    if has_row(site, &path) {
        let mode = mode.copy(alloc)?;
        entries.push(MountEntry {
            path,
            mode,
            optional: true,
        })?;
    }
    Ok(())
}

// Adds the entries of a mode at these paths, if the site has rows for them.
fn bring(
    alloc: Global,
    site: &SiteTable,
    mode: &MountMode,
    texts: &[&str],
    entries: &mut Vec<MountEntry>,
) -> Result<(), AllocError>
    ensures { OnOk result (entries.new.items ≡ entries.old.items ++ filter (stands site.now) (asks_for mode.now (map (λ text. text.now) texts.now))) }
{
    for text in texts {
        bring_one(alloc, site, mode, text, entries)?;
    }
    Ok(())
}

// Adds the entries of each row that is on.
fn bring_each(
    alloc: Global,
    site: &SiteTable,
    rows: &[(bool, MountMode, &[&str])],
    entries: &mut Vec<MountEntry>,
) -> Result<(), AllocError>
    ensures { OnOk result (entries.new.items ≡ entries.old.items ++ filter (stands site.now) (flat_map by_lent rows.now)) }
{
    for row in rows {
        if row.0 {
            bring(alloc, site, &row.1, row.2, entries)?;
        }
    }
    Ok(())
}

// Adds the entries of the rows that are on.
fn bring_rows(
    alloc: Global,
    site: &SiteTable,
    on: RowsOn,
    entries: &mut Vec<MountEntry>,
) -> Result<(), AllocError>
    ensures { OnOk result (entries.new.items ≡ entries.old.items ++ filter (stands site.now) (flat_map by_row (table on))) }
{
    let is_left = on.is_left;
    let rows = [
        (on.files, MountMode::ReadOnly, FILES),
        (on.merged, MountMode::ReadOnly, MERGED),
        (on.configuration, MountMode::ReadOnly, CONFIGURATION),
        (on.all, MountMode::ReadOnly, ROOT),
        (on.all, MountMode::ReadWriteImplicit, LEFT_BY_STRICT),
        (on.homes_hidden, MountMode::Hidden, HOMES),
        (on.homes_read, MountMode::ReadOnly, HOMES),
        (
            on.homes_fresh,
            MountMode::Tmpfs {
                read_only: false,
                no_exec: false,
                no_suid: false,
            },
            HOMES,
        ),
        (
            on.homes_empty,
            MountMode::Tmpfs {
                read_only: true,
                no_exec: false,
                no_suid: false,
            },
            HOMES,
        ),
        (on.temporary, MountMode::PrivateTmp, TEMPORARY),
        (on.disconnected, MountMode::DisconnectedTmp, TEMPORARY),
        (on.devices, MountMode::PrivateDevices, DEVICES),
        (on.devices, MountMode::Node, DEVICES_LEFT),
        (on.tunables, MountMode::ReadOnly, VARIABLES),
        (on.tunables, MountMode::Hidden, MEMORY),
        (on.tunables, MountMode::ReadOnly, KERNEL_OBJECTS),
        (on.tunables, MountMode::ReadWriteImplicit, LEFT_BY_TUNABLES),
        (on.modules, MountMode::Hidden, MODULES),
        (on.merged_modules, MountMode::Hidden, MERGED_MODULES),
        (on.logs, MountMode::Hidden, LOGS),
        (on.groups_read, MountMode::ReadOnly, GROUPS),
        (on.groups_left, MountMode::ReadWriteImplicit, GROUPS),
        (on.api, MountMode::Procfs, PROCESSES),
        (on.api, MountMode::Devices { is_left }, DEVICES),
        (on.api, MountMode::Sysfs { is_left }, SYSFS),
        (on.api, MountMode::Run { is_left }, RUN),
        (on.sysfs, MountMode::PrivateSysfs, SYSFS),
        (on.hostname, MountMode::ReadOnly, HOSTNAME),
        (on.credentials, MountMode::Hidden, CREDENTIALS),
    ];
    bring_each(alloc, site, &rows, entries)
}

/// Adds the entries of the protections of a unit.
pub(crate) fn bring_table(
    alloc: Global,
    site: &SiteTable,
    version: Version,
    switches: Switches,
    protections: Protections,
    keys: FurtherKeys,
    entries: &mut Vec<MountEntry>,
) -> Result<(), AllocError>
    ensures { OnOk result (entries.new.items ≡ entries.old.items ++ filter (stands site.now) (flat_map by_row (table (rows_on version switches protections keys)))) }
{
    let on = rows_on(version, switches, protections, keys);
    bring_rows(alloc, site, on, entries)
}
