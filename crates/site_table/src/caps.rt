//! Reads the capabilities in a list of names.

ghost use Rattle.std.specs.Prelude.{◌≡◌, ◌≤◌, IfSome, map, is_some};
ghost use Rattle.std.specs.List.{list_all};
ghost use Rattle.toml.specs.View.{view};
ghost use Rattle.site_table.specs.Caps.{cap_of, as_cap, are_caps, caps_of};

use cap_sets::CapSet;
use toml::Value;

// returns the number of the capability of exactly this name
fn cap_of(name: &str) -> Option<u8>
    ensures number { result ≡ cap_of name.now }
    ensures in_range { IfSome result (λ number. number ≤ 40) }
{
    let number = CapSet::from_name(name)?;
    if CapSet::name(number) == name {
        Some(number)
    } else {
        None
    }
}

fn as_cap(value: &Value) -> Option<u8>
    ensures number { result ≡ as_cap (view value.now) }
    ensures in_range { IfSome result (λ number. number ≤ 40) }
{
    cap_of(value.as_str()?)
}

fn all_caps(values: &[Value]) -> bool
    ensures { result ≡ list_all (λ value. is_some (as_cap (view value))) values.now }
{
    values.iter().all(|value| as_cap(value).is_some())
}

/// Returns whether each value is the name of a capability.
pub fn are_caps(values: &[Value]) -> bool
    ensures all_are_caps { result ≡ are_caps (map view values.now) }
{
    all_caps(values)
}

/// Returns the set of the named capabilities.
pub fn caps_of(values: &[Value]) -> CapSet
    ensures by_their_names { result ≡ caps_of (map view values.now) }
{
    let mut set = CapSet::empty();
    for value in values {
        if let Some(number) = as_cap(value) {
            set = set.with(number);
        }
    }
    set
}
