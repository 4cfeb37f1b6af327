//! Makes the filters that are on, in the order in which they are installed.
ghost use Rattle.std.specs.Prelude.{◌≡◌, ◌<◌, ◌≤◌, map, filter, length, IfOk, IfSome};
ghost use Rattle.std.specs.List.{All};
ghost use Rattle.call_rules.specs.bpf_code.declared.machine.CallData.{CallData};
ghost use Rattle.call_rules.specs.Action.{case_action};
ghost use Rattle.call_rules.specs.Sizes.{CanCompile};
ghost use Rattle.filter_settings.specs.filter_rules.Costs.{KeepsWithin, HasShortCases, most_costs, most_room};
ghost use Rattle.filter_settings.specs.filter_rules.Known.{HasKnownFamilies};
ghost use Rattle.filter_settings.specs.filter_rules.Installed.{shown, place_of, is_installed, installed};
ghost use Rattle.call_table.specs.Table.{abis, calls_in};
ghost use Rattle.filter_settings.specs.filter_rules.Marks.{AreMarksOf};
ghost use Rattle.filter_settings.specs.filter_rules.Order.{Ascends};
ghost use Rattle.filter_settings.specs.filter_rules.Rules.{AreRulesOf};
ghost use Rattle.filter_settings.specs.filter_rules.Wanted.{is_on, wanted_action};

use crate::filter_rules::marks::{Mark, call_marks};
use crate::filter_rules::names::{FilterName, FilterPlace, all_programs};
use crate::filter_rules::namespaces::forbids_a_type;
use crate::filter_rules::order::ascending;
use crate::filter_rules::rules::rule_set;
use crate::filter_rules::settings::{FilterSettings, marks_memory};
use call_rules::RuleSet;
use call_table::{CallLine, CallTable};
use std::alloc::{AllocError, Global};

/// A filter and its rules for an ABI.
#[derive(Drop)]
pub struct Filter {
    pub name: FilterName,
    /// The position of its ABI in the table of calls, from 0.
    pub abi: u8,
    pub rules: RuleSet,
}

// Returns whether the settings ask for the filter.
fn is_on(settings: &FilterSettings, filter: FilterName) -> bool
    ensures { result ≡ is_on settings.now filter }
{
    match filter {
        FilterName::Families => settings.families.is_some(),
        FilterName::MemoryDenyWriteExecute => {
            settings.memory_deny_write_execute && !marks_memory(settings)
        }
        FilterName::Realtime => settings.restrict_realtime,
        FilterName::Suid => settings.restrict_suid_sgid,
        FilterName::Namespaces => forbids_a_type(settings.namespaces),
        FilterName::Tunables => settings.systemd.is_some() && settings.protect_kernel_tunables,
        FilterName::Hostname => settings.protect_hostname,
        FilterName::Modules => settings.protect_kernel_modules,
        FilterName::Logs => settings.protect_kernel_logs,
        FilterName::Clock => settings.protect_clock,
        FilterName::Devices => settings.private_devices,
        FilterName::Personality => settings.lock_personality,
        FilterName::Calls => settings.calls.is_some(),
        FilterName::Archs => settings.second_abi_refused,
    }
}

// Returns the rules of a filter for its ABI. The calls of both ABIs are in ascending order of their numbers.
fn rules_at(
    alloc: Global,
    table: &CallTable,
    settings: &FilterSettings,
    marks: &[Mark],
    native: &[&CallLine],
    second: &[&CallLine],
    place: FilterPlace,
) -> Result<RuleSet, AllocError>
    requires marks { IfSome settings.now.calls (λ list. AreMarksOf table.now settings.now.default_action list marks.now) }
    requires known_families { HasKnownFamilies table.now settings.now }
    requires in_range { place.abi < length (abis table.now) }
    requires native_ascends { Ascends (calls_in table.now 0) (map (λ call. call.now) native.now) }
    requires second_ascends { Ascends (calls_in table.now 1) (map (λ call. call.now) second.now) }
    ensures { IfOk result (λ rules. AreRulesOf place.name settings.now table.now place.abi rules) }
{
    if place.abi == 0 {
        rule_set(alloc, table, settings, marks, place.name, 0, native)
    } else {
        rule_set(alloc, table, settings, marks, place.name, 1, second)
    }
}

// Makes the filters among these that are on.
fn filters_among(
    alloc: Global,
    table: &CallTable,
    settings: &FilterSettings,
    marks: &[Mark],
    native: &[&CallLine],
    second: &[&CallLine],
    places: &[FilterPlace],
) -> Result<Vec<Filter>, AllocError>
    requires marks { IfSome settings.now.calls (λ list. AreMarksOf table.now settings.now.default_action list marks.now) }
    requires known_families { HasKnownFamilies table.now settings.now }
    requires in_range { All (λ place. place.abi < length (abis table.now)) places.now }
    requires native_ascends { Ascends (calls_in table.now 0) (map (λ call. call.now) native.now) }
    requires second_ascends { Ascends (calls_in table.now 1) (map (λ call. call.now) second.now) }
    ensures on { IfOk result (λ filters. map place_of filters.items ≡ filter (is_installed settings.now) (map shown places.now)) }
    ensures rules { IfOk result (λ filters. All (λ made. AreRulesOf made.name settings.now table.now made.abi made.rules) filters.items) }
{
    let mut filters = Vec::new(alloc);
    for place in places {
        if is_on(settings, place.name) {
            let rules = rules_at(alloc, table, settings, marks, native, second, *place)?;
            filters.push(Filter {
                name: place.name,
                abi: place.abi,
                rules,
            })?;
        }
    }
    Ok(filters)
}

/// Makes the filters that the settings ask for, with their rules for each ABI (systemd.exec(5), Sandboxing and System
/// Call Filtering).
///
/// Each listed family must be a family of the table, as it is if the table was used to look up its word. Then an error
/// means that memory ran out.
pub fn filters(
    alloc: Global,
    table: &CallTable,
    settings: &FilterSettings,
) -> Result<Vec<Filter>, AllocError>
    requires known_families { HasKnownFamilies table.now settings.now }
    // The result has exactly the filters that are on, in the order in which they are installed.
    ensures exactly_those_on { IfOk result (λ filters. map place_of filters.items ≡ installed settings.now table.now) }
    // The rules say by numbers and tests what the settings say by names and words.
    ensures do_as_wanted { IfOk result (λ filters. All (λ made. (input : CallData) → case_action made.rules input ≡ wanted_action made.name settings.now table.now made.abi input) filters.items) }
    // The rules meet the condition of the compiler, and cost no more than a filter may.
    ensures can_be_compiled { IfOk result (λ filters. All (λ made. CanCompile made.rules) filters.items) }
    ensures keep_within_costs { IfOk result (λ filters. All (λ made. KeepsWithin (most_costs made.name) made.rules) filters.items) }
    // The programs together fit into a stack of filters.
    ensures fit_into_a_stack { IfOk result (λ filters. most_room filters.items ≤ 32768) }
    // A call has at most eight cases, or each of its cases tests the same whole argument.
    ensures cases_are_short { IfOk result (λ filters. All (λ made. All HasShortCases made.rules.calls) filters.items) }
{
    let marks = call_marks(alloc, table, &settings.calls, settings.default_action)?;
    let native = ascending(alloc, table, 0)?;
    let second = ascending(alloc, table, 1)?;
    filters_among(
        alloc,
        table,
        settings,
        marks.as_slice(),
        native.as_slice(),
        second.as_slice(),
        all_programs(table),
    )
}
