//! Makes the rules of a filter, for each call of the table by its name.
ghost use Rattle.std.specs.Prelude.{◌≡◌, ◌<◌, map, length, IfOk, IfSome};
ghost use Rattle.std.specs.List.{filter_map};
ghost use Rattle.filter_settings.specs.filter_rules.Known.{HasKnownFamilies};
ghost use Rattle.filter_settings.specs.filter_rules.Marks.{AreMarksOf};
ghost use Rattle.filter_settings.specs.filter_rules.Order.{Ascends};
ghost use Rattle.filter_settings.specs.filter_rules.Wanted.{unnamed_action, other_action};
ghost use Rattle.call_table.specs.Table.{abis, calls_in};
ghost use Rattle.filter_settings.specs.filter_rules.Rules.{choice_of, rule_for, AreRulesOf};

use crate::filter_rules::blocked::blocked_choice;
use crate::filter_rules::calls::{calls_choice, rest_action};
use crate::filter_rules::choice::{Choice, rule_with};
use crate::filter_rules::families::families_choice;
use crate::filter_rules::mapping::mapping_choice;
use crate::filter_rules::marks::Mark;
use crate::filter_rules::names::FilterName;
use crate::filter_rules::namespaces::namespaces_choice;
use crate::filter_rules::personality::personality_choice;
use crate::filter_rules::realtime::realtime_choice;
use crate::filter_rules::settings::FilterSettings;
use crate::filter_rules::suid::suid_choice;
use call_rules::{Action, CallRule, CallRules, RuleSet};
use call_table::{CallLine, CallTable};
use std::alloc::{AllocError, Global};

// Returns what the filter does to calls of this name, if it has a rule for them.
fn choice_of(
    alloc: Global,
    table: &CallTable,
    settings: &FilterSettings,
    marks: &[Mark],
    filter: FilterName,
    name: &str,
) -> Result<Option<Choice>, AllocError>
    requires marks { IfSome settings.now.calls (λ list. AreMarksOf table.now settings.now.default_action list marks.now) }
    ensures { IfOk result (λ choice. choice ≡ choice_of filter settings.now table.now name.now) }
{
    match filter {
        FilterName::Families => {
            families_choice(alloc, settings.systemd, table, &settings.families, name)
        }
        FilterName::MemoryDenyWriteExecute => mapping_choice(alloc, name),
        FilterName::Realtime => realtime_choice(alloc, settings.systemd, name),
        FilterName::Suid => suid_choice(alloc, settings.systemd, name),
        FilterName::Namespaces => {
            namespaces_choice(alloc, settings.systemd, settings.namespaces, name)
        }
        FilterName::Tunables => Ok(blocked_choice(alloc, table, &["_sysctl"], name)),
        FilterName::Hostname => Ok(blocked_choice(
            alloc,
            table,
            &["sethostname", "setdomainname"],
            name,
        )),
        FilterName::Modules => Ok(blocked_choice(alloc, table, &["@module"], name)),
        FilterName::Logs => Ok(blocked_choice(alloc, table, &["syslog"], name)),
        FilterName::Clock => Ok(blocked_choice(alloc, table, &["@clock"], name)),
        FilterName::Devices => Ok(blocked_choice(alloc, table, &["@raw-io"], name)),
        FilterName::Personality => {
            personality_choice(alloc, settings.systemd, settings.domain, name)
        }
        FilterName::Calls => Ok(calls_choice(
            alloc,
            table,
            &settings.calls,
            settings.default_action,
            marks,
            name,
        )),
        FilterName::Archs => Ok(None),
    }
}

// Returns what the filter does to a number without a name.
fn unnamed_action(settings: &FilterSettings, filter: FilterName) -> Action
    ensures { result ≡ unnamed_action filter settings.now }
{
    match filter {
        FilterName::Calls => rest_action(&settings.calls, settings.default_action),
        FilterName::Archs => Action::KillProcess,
        _ => Action::Allow,
    }
}

fn rule_for(
    alloc: Global,
    table: &CallTable,
    settings: &FilterSettings,
    marks: &[Mark],
    filter: FilterName,
    call: &CallLine,
) -> Result<Option<CallRule>, AllocError>
    requires marks { IfSome settings.now.calls (λ list. AreMarksOf table.now settings.now.default_action list marks.now) }
    ensures { IfOk result (λ rule. rule ≡ rule_for filter settings.now table.now call.now) }
{
    match choice_of(alloc, table, settings, marks, filter, call.name.as_str())? {
        Some(choice) => Ok(Some(rule_with(alloc, call.number, &choice)?)),
        None => Ok(None),
    }
}

fn rules_for(
    alloc: Global,
    table: &CallTable,
    settings: &FilterSettings,
    marks: &[Mark],
    filter: FilterName,
    calls: &[&CallLine],
) -> Result<Vec<CallRule>, AllocError>
    requires marks { IfSome settings.now.calls (λ list. AreMarksOf table.now settings.now.default_action list marks.now) }
    ensures { IfOk result (λ rules. rules.items ≡ filter_map (rule_for filter settings.now table.now) (map (λ call. call.now) calls.now)) }
{
    let mut rules = Vec::new(alloc);
    for call in calls {
        if let Some(rule) = rule_for(alloc, table, settings, marks, filter, *call)? {
            rules.push(rule)?;
        }
    }
    Ok(rules)
}

// Returns the action on calls of another architecture than the filter's own.
fn other_action(table: &CallTable) -> Action
    ensures { result ≡ other_action table.now.second }
{
    if table.abis() == 1 {
        Action::KillProcess
    } else {
        Action::Allow
    }
}

/// Makes the rules of a filter for the ABI at this position, from the calls of the ABI in ascending order of numbers.
pub fn rule_set(
    alloc: Global,
    table: &CallTable,
    settings: &FilterSettings,
    marks: &[Mark],
    filter: FilterName,
    abi: u8,
    calls: &[&CallLine],
) -> Result<RuleSet, AllocError>
    requires marks { IfSome settings.now.calls (λ list. AreMarksOf table.now settings.now.default_action list marks.now) }
    requires known_families { HasKnownFamilies table.now settings.now }
    requires in_range { abi < length (abis table.now) }
    requires ascends { Ascends (calls_in table.now abi) (map (λ call. call.now) calls.now) }
    ensures of_the_settings { IfOk result (λ rules. AreRulesOf filter settings.now table.now abi rules) }
{
    // The limits of the table bound the costs of the rules.
    let few_calls = table.calls_in(abi).len() <= 512;
    prove!(few_calls);
    let few_families = table.families().len() <= 128;
    prove!(few_families);
    let rules = rules_for(alloc, table, settings, marks, filter, calls)?;
    Ok(RuleSet {
        arch: table.arch_of(abi),
        calls: CallRules::new(rules),
        rest: unnamed_action(settings, filter),
        other: other_action(table),
    })
}
