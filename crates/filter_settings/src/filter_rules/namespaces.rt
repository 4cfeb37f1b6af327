//! Makes the rules of RestrictNamespaces=.
ghost use Rattle.std.specs.Prelude.{◌≡◌, ◌≤◌, ◌++◌, map, filter, not, Some, IfOk, IfSome, OnOk};
ghost use Rattle.std.specs.List.{list_all};
ghost use Rattle.filter_settings.specs.filter_rules.NamespaceTypes.{all_types, permits};
ghost use Rattle.filter_settings.specs.filter_rules.Namespaces.{types_argument};
ghost use Rattle.filter_settings.specs.filter_rules.NamespacesChoice.{any_type_tests, flag_test, namespace_tests, namespaces_choice, time_tests, namespaces_choice_in};

use crate::filter_rules::choice::{Choice, NOT_THERE, always, bits, refused_where, whole};
use crate::filter_rules::namespace_types::{NamespaceTypes, all_types};
use call_rules::Test;
use dropin_merge::Version;
use dropin_merge::linux_numbers::namespaces::NamespaceType;
use std::alloc::{AllocError, Global};

/// CLONE_NEWTIME, clone(2).
const CLONE_NEWTIME: u32 = 0x80;

fn permits_each(types: NamespaceTypes, kinds: &[NamespaceType]) -> bool
    ensures { result ≡ list_all (permits types) kinds.now }
{
    kinds.iter().all(|kind| types.permits(*kind))
}

/// Returns whether some type is not permitted.
pub fn forbids_a_type(types: NamespaceTypes) -> bool
    ensures not_all_permitted { result ≡ not (list_all (permits types) all_types) }
{
    !permits_each(types, all_types())
}

// Returns which argument of a call of this name has the flags of types.
fn types_argument(name: &str) -> Option<u8>
    ensures flags { result ≡ types_argument name.now }
    ensures is_argument { IfSome result (λ at. at ≤ 5) }
{
    match name {
        "unshare" | "clone" => Some(0),
        "setns" => Some(1),
        _ => None,
    }
}

// Returns the test that setns(2) may enter a namespace of any type, if the call is setns(2).
fn any_type_tests(alloc: Global, name: &str) -> Result<Vec<Test>, AllocError>
    ensures { IfOk result (λ tests. tests.items ≡ any_type_tests name.now) }
{
    let mut tests = Vec::new(alloc);
    if name == "setns" {
        tests.push(whole(1, 0))?;
    }
    Ok(tests)
}

// Adds a test for each of these types that is not permitted.
fn add_flag_tests(
    types: NamespaceTypes,
    kinds: &[NamespaceType],
    at: u8,
    tests: &mut Vec<Test>,
) -> Result<(), AllocError>
    requires { at ≤ 5 }
    ensures { OnOk result (tests.new.items ≡ tests.old.items ++ map (flag_test at) (filter (λ kind. not (permits types kind)) kinds.now)) }
{
    for kind in kinds {
        if !types.permits(*kind) {
            tests.push(bits(at, kind.flag()))?;
        }
    }
    Ok(())
}

// Adds the test that clone(2) makes a time namespace, if the call is clone(2).
fn add_time_test(name: &str, tests: &mut Vec<Test>) -> Result<(), AllocError>
    ensures { OnOk result (tests.new.items ≡ tests.old.items ++ time_tests name.now) }
{
    if name == "clone" {
        tests.push(bits(0, CLONE_NEWTIME))?;
    }
    Ok(())
}

// Returns the tests for the types that are not permitted.
fn type_tests(
    alloc: Global,
    types: NamespaceTypes,
    name: &str,
    at: u8,
) -> Result<Vec<Test>, AllocError>
    requires { at ≤ 5 }
    ensures { IfOk result (λ tests. tests.items ≡ namespace_tests types name.now at) }
{
    let mut tests = any_type_tests(alloc, name)?;
    add_flag_tests(types, all_types(), at, &mut tests)?;
    Ok(tests)
}

// Returns what the rules do to calls of this name, if they make or enter namespaces.
fn base_choice(
    alloc: Global,
    types: NamespaceTypes,
    name: &str,
) -> Result<Option<Choice>, AllocError>
    ensures { IfOk result (λ choice. choice ≡ namespaces_choice types name.now) }
{
    match types_argument(name) {
        Some(at) => {
            let tests = type_tests(alloc, types, name, at)?;
            Ok(Some(refused_where(alloc, tests.as_slice())?))
        }
        None => Ok(None),
    }
}

// Returns the same by the rules of a version of systemd. No filter sees the flags of clone3(2), which are in memory.
fn later_choice(
    alloc: Global,
    version: Version,
    types: NamespaceTypes,
    name: &str,
) -> Result<Option<Choice>, AllocError>
    ensures { IfOk result (λ choice. choice ≡ namespaces_choice_in (Some version) types name.now) }
{
    if name == "clone3" {
        return Ok(Some(always(alloc, NOT_THERE)));
    }
    match types_argument(name) {
        Some(at) => {
            let mut tests = type_tests(alloc, types, name, at)?;
            add_time_test(name, &mut tests)?;
            Ok(Some(refused_where(alloc, tests.as_slice())?))
        }
        None => Ok(None),
    }
}

/// Returns what the rules do to calls of this name, if they can make or enter namespaces.
pub fn namespaces_choice(
    alloc: Global,
    systemd: Option<Version>,
    types: NamespaceTypes,
    name: &str,
) -> Result<Option<Choice>, AllocError>
    ensures by_the_types { IfOk result (λ choice. choice ≡ namespaces_choice_in systemd types name.now) }
{
    match systemd {
        None => base_choice(alloc, types, name),
        Some(version) => later_choice(alloc, version, types, name),
    }
}
