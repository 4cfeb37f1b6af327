//! Personality=: the execution domain of the service (systemd.exec(5), personality(2)).
ghost use Rattle.std.specs.Prelude.{◌≡◌, unwrap_or, IfOk};
ghost use Rattle.std.specs.Option.{option_map};
ghost use Rattle.std.specs.Str.{bytes_eq};
ghost use Rattle.dropin_merge.specs.unit_values.Lasting.{last_read};
ghost use Rattle.filter_settings.specs.Domains.{second_of, runs_too, domain_named, unit_domain};
ghost use Rattle.filter_settings.specs.declared.filter_rules.personality.Domain.TheVariants.{Linux};

use crate::filter_rules::Domain;
use call_table::CallTable;
use dropin_merge::Resolved;
use dropin_merge::unit_values::{Value, values_of_key};
use std::alloc::{AllocError, Global};

// Returns the architecture of 32 bits whose programs the machines of one of 64 bits run too.
fn second_of(native: &str) -> Option<&'static str>
    ensures { option_map (λ name. name.now) result ≡ second_of native.now }
{
    match native {
        "x86-64" => Some("x86"),
        "arm64" => Some("arm"),
        "mips64" => Some("mips"),
        "mips64-le" => Some("mips-le"),
        "ppc64" => Some("ppc"),
        "ppc64-le" => Some("ppc-le"),
        "s390x" => Some("s390"),
        "sparc64" => Some("sparc"),
        _ => None,
    }
}

fn runs_too(native: &str, name: &str) -> bool
    ensures { result ≡ runs_too native.now name.now }
{
    match second_of(native) {
        Some(second) => name == second,
        None => false,
    }
}

// Returns the name of the native architecture.
fn native_name(table: &CallTable) -> &str
    ensures { result.now ≡ table.now.name }
{
    match table.abi_name(0) {
        Some(name) => name,
        None => unreachable!(),
    }
}

// Returns the domain that a value names, if it names one.
fn domain_named(table: &CallTable, text: &str) -> Option<Domain>
    ensures { result ≡ domain_named table.now text.now }
{
    let native = native_name(table);
    if text.is_empty() || text == native {
        return Some(Domain::Linux);
    }
    if runs_too(native, text) {
        return Some(Domain::Linux32);
    }
    None
}

// Returns the domain behind one more value.
fn next_domain(table: &CallTable, domain: Domain, value: &Value) -> Domain
    ensures { result ≡ unwrap_or (domain_named table.now value.now.text) domain }
{
    domain_named(table, value.text.as_str()).unwrap_or(domain)
}

// Returns the domain that the last of these values names that names one.
fn last_domain(table: &CallTable, values: &[Value]) -> Domain
    ensures { result ≡ last_read (domain_named table.now) Linux values.now }
{
    let mut domain = Domain::Linux;
    for value in values {
        domain = next_domain(table, domain, value);
    }
    domain
}

/// Returns the execution domain that the files of a unit set by such a key: the last value that can be read decides.
pub fn domain_of_key(
    alloc: Global,
    unit: &Resolved,
    table: &CallTable,
    key: &str,
) -> Result<Domain, AllocError>
    ensures last_value_decides { IfOk result (λ domain. domain ≡ unit_domain unit.now table.now key.now) }
{
    let values = values_of_key(alloc, unit, key)?.what;
    Ok(last_domain(table, values.as_slice()))
}
