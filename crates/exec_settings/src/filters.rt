//! Reads the keys of the filters of system calls, or names the group of calls that the table lacks.
ghost use Rattle.std.specs.Prelude.{◌≡◌, ◌++◌, IfOk, OnOk};
ghost use Rattle.filter_settings.specs.filter_rules.GivingUp.{may_give_up};
ghost use Rattle.filter_settings.specs.filter_rules.Known.{HasKnownFamilies};
ghost use Rattle.filter_settings.specs.filter_rules.Memory.{marks_memory};
ghost use Rattle.filter_settings.specs.filter_rules.Refusing.{AreRefusing};
ghost use Rattle.filter_settings.specs.Settings.{filter_notes};
ghost use Rattle.exec_settings.specs.AreSettings.{AreFilters};
ghost use Rattle.exec_settings.specs.Bounding.{taken_caps};
ghost use Rattle.exec_settings.specs.Dynamic.{is_dynamic as is_dynamic_of, unit_filters};
ghost use Rattle.exec_settings.specs.Mounts.{switches_of, unit_switches};
ghost use Rattle.exec_settings.specs.Refusals.{RefusesFirst, group_refusal};

use crate::bounding::taken_caps;
use crate::dynamic::with_dynamic_user;
use crate::errors::SettingsError;
use crate::groups::missing_group;
use cred_settings::{CapSet, FileNote, Resolved, Text};
use filter_settings::filter_rules::{Filter, FilterSettings, filters, marks_memory, may_give_up};
use filter_settings::{CallTable, filter_settings};
use mount_settings::Switches;
use std::alloc::Global;

/// The filters, and the other effects of their keys.
#[derive(Drop)]
pub struct Restrictions {
    /// The filters that are on, in the order in which they are installed.
    pub filters: Vec<Filter>,
    /// Whether the kernel is to refuse memory that can be both written and executed, without a filter.
    pub mdwe: bool,
    /// Whether a service with these filters may still give up capabilities.
    pub may_give_up: bool,
    /// The capabilities that these keys take from the bounding set.
    pub taken: CapSet,
    /// The values of the keys that also imply paths.
    pub switches: Switches,
}

// Returns the values of the keys that imply paths and do other things too.
fn switches_of(is_dynamic: bool, filters: &FilterSettings) -> Switches
    ensures { result ≡ switches_of is_dynamic filters.now }
{
    Switches {
        private_devices: filters.private_devices,
        protect_kernel_modules: filters.protect_kernel_modules,
        protect_kernel_logs: filters.protect_kernel_logs,
        dynamic_user: is_dynamic,
    }
}

// Reads the settings of the filters.
#[tactic(auto, unfolding(crate::specs::Dynamic::unit_filters, crate::specs::Refusals::group_refusal))]
fn found_filters(
    alloc: Global,
    unit: &Resolved,
    calls: &CallTable,
    is_dynamic: bool,
    notes: &mut Vec<FileNote>,
) -> Result<FilterSettings, SettingsError>
    requires { is_dynamic ≡ is_dynamic_of unit.now }
    ensures refuses_first { RefusesFirst (group_refusal unit.now calls.now) result }
    ensures come_to { IfOk result (λ found. found ≡ unit_filters unit.now calls.now) }
    ensures known { IfOk result (HasKnownFamilies calls.now) }
    ensures refusing { IfOk result AreRefusing }
    ensures noted { OnOk result (notes.new.items ≡ notes.old.items ++ filter_notes unit.now calls.now) }
{
    let said = filter_settings(alloc, unit, calls)?.noted_in(notes)?;
    let found = with_dynamic_user(is_dynamic, said);
    match missing_group(calls, &found) {
        None => Ok(found),
        Some(name) => Err(SettingsError::MissingGroup(Text::new(alloc, name)?)),
    }
}

/// Reads the keys of the filters, and adds their notes after the others. `is_dynamic` says if DynamicUser= is on.
pub fn read_filters(
    alloc: Global,
    unit: &Resolved,
    calls: &CallTable,
    is_dynamic: bool,
    notes: &mut Vec<FileNote>,
) -> Result<Restrictions, SettingsError>
    requires { is_dynamic ≡ is_dynamic_of unit.now }
    ensures refuses_first { RefusesFirst (group_refusal unit.now calls.now) result }
    ensures as_wanted { IfOk result (λ made. AreFilters (unit_filters unit.now calls.now) calls.now made.filters.items) }
    ensures marks { IfOk result (λ made. made.mdwe ≡ marks_memory (unit_filters unit.now calls.now)) }
    ensures gives_up { IfOk result (λ made. made.may_give_up ≡ may_give_up calls.now (unit_filters unit.now calls.now).calls) }
    ensures taken { IfOk result (λ made. made.taken ≡ taken_caps (unit_filters unit.now calls.now)) }
    ensures switches { IfOk result (λ made. made.switches ≡ unit_switches unit.now) }
    ensures noted { OnOk result (notes.new.items ≡ notes.old.items ++ filter_notes unit.now calls.now) }
{
    let found = found_filters(alloc, unit, calls, is_dynamic, notes)?;
    Ok(Restrictions {
        filters: filters(alloc, calls, &found)?,
        mdwe: marks_memory(&found),
        may_give_up: may_give_up(calls, &found.calls),
        taken: taken_caps(&found),
        switches: switches_of(is_dynamic, &found),
    })
}
