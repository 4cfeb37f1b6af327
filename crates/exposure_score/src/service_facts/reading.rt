//! What the tests look at, from the files of a unit and its settings.

ghost use Rattle.std.specs.Prelude.{◌≡◌, ◌≤◌, IfOk, length, count_by};
ghost use Rattle.exec_settings.specs.Dynamic.{is_dynamic as is_dynamic_of, unit_filters};
ghost use Rattle.exec_settings.specs.mount_settings.Protections.{unit_protections, in_effect};
ghost use Rattle.exposure_score.specs.service_facts.Sandbox.{names_groups, sandbox_of, is_writable_key};

use crate::service_facts::sandbox::Sandbox;
use exec_settings::{
    CallTable, FilterSettings, MountSettingsError, PathKey, Protections, Resolved, Settings,
    SiteTable, Switches, WrittenPath, WrittenPaths, filter_settings, flag_of_key, mount_settings,
    words_of_key,
};
use std::alloc::{AllocError, Global};

// Returns whether SupplementaryGroups= names a group.
fn names_groups(alloc: Global, unit: &Resolved) -> Result<bool, AllocError>
    ensures { IfOk result (λ names. names ≡ names_groups unit.now) }
{
    let said = words_of_key(alloc, unit, "SupplementaryGroups")?;
    Ok(said.what.list().len() != 0)
}

// Returns whether DynamicUser= is on.
#[tactic(auto, unfolding(exec_settings::specs::Dynamic::is_dynamic))]
fn is_dynamic(alloc: Global, unit: &Resolved) -> Result<bool, AllocError>
    ensures { IfOk result (λ is. is ≡ is_dynamic_of unit.now) }
{
    Ok(flag_of_key(alloc, unit, "DynamicUser")?.what)
}

// The keys of the filters, with what a dynamic user adds.
#[tactic(auto, unfolding(exec_settings::specs::Dynamic::unit_filters))]
fn filters_in_effect(
    alloc: Global,
    unit: &Resolved,
    calls: &CallTable,
    is_dynamic: bool,
) -> Result<FilterSettings, AllocError>
    requires { is_dynamic ≡ is_dynamic_of unit.now }
    ensures { IfOk result (λ filters. filters ≡ unit_filters unit.now calls.now) }
{
    let said = filter_settings(alloc, unit, calls)?.what;
    Ok(FilterSettings {
        restrict_suid_sgid: said.restrict_suid_sgid || is_dynamic,
        ..said
    })
}

// The keys that protect the file system, as they are in effect.
fn protections_in_effect(
    alloc: Global,
    unit: &Resolved,
    paths: &WrittenPaths,
    site: &SiteTable,
    is_dynamic: bool,
) -> Result<Protections, AllocError>
    requires few_paths { length paths.now ≤ 128 }
    ensures { IfOk result (λ said. said ≡ in_effect is_dynamic (unit_protections unit.now)) }
{
    let switches = Switches {
        private_devices: false,
        protect_kernel_modules: false,
        protect_kernel_logs: false,
        dynamic_user: is_dynamic,
    };
    match mount_settings(alloc, unit, paths, site, switches) {
        Ok(said) => Ok(said.what.protections),
        Err(MountSettingsError::Memory) => Err(AllocError),
        Err(MountSettingsError::TooManyPaths) => unreachable!(),
    }
}

/// Returns what the tests look at in a unit with these settings and written paths.
#[tactic(auto, unfolding(crate::specs::service_facts::Sandbox::sandbox_of))]
pub fn read_sandbox(
    alloc: Global,
    unit: &Resolved,
    calls: &CallTable,
    site: &SiteTable,
    settings: &Settings,
    paths: &WrittenPaths,
) -> Result<Sandbox, AllocError>
    requires few_paths { length paths.now ≤ 128 }
    ensures of_the_unit { IfOk result (λ sandbox. sandbox ≡ sandbox_of unit.now calls.now settings.now) }
{
    let is_dynamic = is_dynamic(alloc, unit)?;
    Ok(Sandbox {
        uid: settings.uid,
        names_groups: names_groups(alloc, unit)?,
        no_new_privs: settings.no_new_privs,
        bounding: settings.bounding,
        ambient: settings.ambient,
        filters: filters_in_effect(alloc, unit, calls, is_dynamic)?,
        protections: protections_in_effect(alloc, unit, paths, site, is_dynamic)?,
    })
}

fn is_writable_key(key: PathKey) -> bool
    ensures { result ≡ is_writable_key key }
{
    matches!(key, PathKey::ReadWritePaths | PathKey::BindPaths)
}

/// Returns how many of the paths are written or bound.
pub fn count_writable(paths: &[WrittenPath]) -> usize
    ensures count { result ≡ count_by (λ path. is_writable_key path.key) paths.now }
    ensures at_most_all { result ≤ length paths.now }
{
    paths
        .iter()
        .filter(|path| is_writable_key(path.key))
        .count()
}
