//! Reads the keys of the system call filters.
ghost use Rattle.std.specs.Prelude.{◌≡◌, ◌++◌, IfOk, OnOk};
ghost use Rattle.dropin_merge.specs.unit_values.Flags.{unit_flag, unit_flag_notes};
ghost use Rattle.filter_settings.specs.filter_rules.Known.{HasKnownFamilies};
ghost use Rattle.filter_settings.specs.filter_rules.Refusing.{AreRefusing};
ghost use Rattle.filter_settings.specs.Settings.{flags_of, settings_of, restriction_notes, protection_notes, filter_notes};

use crate::architectures::second_refused_by_key;
use crate::domains::domain_of_key;
use crate::error_actions::error_action_of_key;
use crate::filter_rules::FilterSettings;
use crate::key_lists::list_of_key;
use crate::namespaces::namespaces_of_key;
use call_table::CallTable;
use dropin_merge::Resolved;
use dropin_merge::unit_values::{FileNote, Said, flag_of_key};
use std::alloc::{AllocError, Global};

// Reads a boolean key, and adds its notes.
fn flag(
    alloc: Global,
    unit: &Resolved,
    key: &str,
    notes: &mut Vec<FileNote>,
) -> Result<bool, AllocError>
    ensures means { IfOk result (λ on. on ≡ unit_flag unit.now key.now) }
    ensures noted { OnOk result (notes.new.items ≡ notes.old.items ++ unit_flag_notes unit.now key.now) }
{
    flag_of_key(alloc, unit, key)?.noted_in(notes)
}

/// The values of the boolean keys.
#[derive(Clone, Copy)]
pub struct Booleans {
    pub memory_deny_write_execute: bool,
    pub restrict_realtime: bool,
    pub restrict_suid_sgid: bool,
    pub lock_personality: bool,
    pub protect_hostname: bool,
    pub protect_kernel_modules: bool,
    pub protect_kernel_logs: bool,
    pub protect_clock: bool,
    pub private_devices: bool,
}

// Reads the boolean keys, and adds their notes.
fn flags(alloc: Global, unit: &Resolved, notes: &mut Vec<FileNote>) -> Result<Booleans, AllocError>
    ensures means { IfOk result (λ flags. flags ≡ flags_of unit.now) }
    ensures noted { OnOk result (notes.new.items ≡ notes.old.items ++ (restriction_notes unit.now ++ protection_notes unit.now)) }
{
    Ok(Booleans {
        memory_deny_write_execute: flag(alloc, unit, "MemoryDenyWriteExecute", notes)?,
        restrict_realtime: flag(alloc, unit, "RestrictRealtime", notes)?,
        restrict_suid_sgid: flag(alloc, unit, "RestrictSUIDSGID", notes)?,
        lock_personality: flag(alloc, unit, "LockPersonality", notes)?,
        protect_hostname: flag(alloc, unit, "ProtectHostname", notes)?,
        protect_kernel_modules: flag(alloc, unit, "ProtectKernelModules", notes)?,
        protect_kernel_logs: flag(alloc, unit, "ProtectKernelLogs", notes)?,
        protect_clock: flag(alloc, unit, "ProtectClock", notes)?,
        private_devices: flag(alloc, unit, "PrivateDevices", notes)?,
    })
}

// Reads all keys, and adds their notes.
fn read_settings(
    alloc: Global,
    unit: &Resolved,
    table: &CallTable,
    notes: &mut Vec<FileNote>,
) -> Result<FilterSettings, AllocError>
    ensures means { IfOk result (λ what. what ≡ settings_of unit.now table.now) }
    ensures noted { OnOk result (notes.new.items ≡ notes.old.items ++ filter_notes unit.now table.now) }
{
    let flags = flags(alloc, unit, notes)?;
    Ok(FilterSettings {
        memory_deny_write_execute: flags.memory_deny_write_execute,
        restrict_realtime: flags.restrict_realtime,
        restrict_suid_sgid: flags.restrict_suid_sgid,
        lock_personality: flags.lock_personality,
        protect_hostname: flags.protect_hostname,
        protect_kernel_modules: flags.protect_kernel_modules,
        protect_kernel_logs: flags.protect_kernel_logs,
        protect_clock: flags.protect_clock,
        private_devices: flags.private_devices,
        default_action: error_action_of_key(alloc, unit, "SystemCallErrorNumber")?.noted_in(notes)?,
        namespaces: namespaces_of_key(alloc, unit, "RestrictNamespaces")?.noted_in(notes)?,
        families: list_of_key(alloc, unit, table, "RestrictAddressFamilies")?.noted_in(notes)?,
        calls: list_of_key(alloc, unit, table, "SystemCallFilter")?.noted_in(notes)?,
        second_abi_refused: second_refused_by_key(
            alloc,
            unit,
            table,
            "SystemCallArchitectures",
        )?.noted_in(notes)?,
        systemd: unit.systemd,
        protect_kernel_tunables: flag_of_key(alloc, unit, "ProtectKernelTunables")?.what,
        domain: domain_of_key(alloc, unit, table, "Personality")?,
    })
}

/// Returns the settings of a unit for its system call filters (systemd.exec(5)). The keys are SystemCallFilter=,
/// SystemCallErrorNumber=, SystemCallArchitectures=, RestrictAddressFamilies=, RestrictNamespaces=, and the boolean keys
/// that turn a filter on.
///
/// Calls, groups and families are looked up in the table. Values that cannot be read and unknown words are ignored, and
/// noted key by key. The notes of a key name values that cannot be expanded, then values that cannot be read, then words.
pub fn filter_settings(
    alloc: Global,
    unit: &Resolved,
    table: &CallTable,
) -> Result<Said<FilterSettings>, AllocError>
    ensures means { IfOk result (λ said. said.what ≡ settings_of unit.now table.now) }
    ensures noted { IfOk result (λ said. said.notes.items ≡ filter_notes unit.now table.now) }
    // The listed families are families of the table.
    ensures families_are_known { IfOk result (λ said. HasKnownFamilies table.now said.what) }
    // A refused call ends the process, or is answered with an error number (seccomp(2)).
    ensures refusals { IfOk result (λ said. AreRefusing said.what) }
{
    let mut notes = Vec::new(alloc);
    let what = read_settings(alloc, unit, table, &mut notes)?;
    Ok(Said { what, notes })
}
