//! Makes sets of capabilities from the sums of lines, as a version of systemd does (systemd.exec(5)).
ghost use Rattle.std.specs.Prelude.{◌≡◌, fold};
ghost use Rattle.cred_settings.specs.CapSums.{counted as counted_as, is_untouched, all_but, anew, changed, with_sum, with_value, summed};

use crate::cap_names::named_caps;
use dropin_merge::unit_values::Listed;
use site_table::CapSet;

/// Returns the set. An unset set counts as all capabilities.
pub fn counted(set: &Option<CapSet>) -> CapSet
    ensures unset_is_all { result ≡ counted_as set.now }
{
    match set {
        Some(set) => *set,
        None => CapSet::full(),
    }
}

// Returns the same set.
fn same(set: &Option<CapSet>) -> Option<CapSet>
    ensures { result ≡ set.now }
{
    match set {
        Some(set) => Some(*set),
        None => None,
    }
}

// Returns whether the set is what it is without any line.
fn is_untouched(default: &Option<CapSet>, set: &Option<CapSet>) -> bool
    ensures { result ≡ is_untouched default.now set.now }
{
    match (default, set) {
        (None, None) => true,
        (Some(default), Some(now)) => *now == *default,
        _ => false,
    }
}

// Returns all capabilities outside the sum. For an empty sum the set is unset.
fn all_but(sum: CapSet) -> Option<CapSet>
    ensures { result ≡ all_but sum }
{
    if sum == CapSet::empty() {
        None
    } else {
        Some(CapSet::full().minus(sum))
    }
}

// Returns the set after a line that begins anew.
fn anew(is_inverted: bool, sum: CapSet) -> Option<CapSet>
    ensures { result ≡ anew is_inverted sum }
{
    if is_inverted { all_but(sum) } else { Some(sum) }
}

// Returns the set after a line that changes it.
fn changed(is_inverted: bool, set: CapSet, sum: CapSet) -> CapSet
    ensures { result ≡ changed is_inverted set sum }
{
    if is_inverted {
        set.minus(sum)
    } else {
        set.union(sum)
    }
}

// Returns the set after a line with this sum.
fn with_sum(
    default: &Option<CapSet>,
    set: &Option<CapSet>,
    is_inverted: bool,
    sum: CapSet,
) -> Option<CapSet>
    ensures { result ≡ with_sum default.now set.now is_inverted sum }
{
    if sum == CapSet::empty() || is_untouched(default, set) {
        anew(is_inverted, sum)
    } else {
        Some(changed(is_inverted, counted(set), sum))
    }
}

// Returns the set after the next value.
fn with_value(default: &Option<CapSet>, set: &Option<CapSet>, one: &Listed) -> Option<CapSet>
    ensures { result ≡ with_value default.now set.now one.now }
{
    with_sum(
        default,
        set,
        one.line.is_inverted,
        named_caps(one.line.words.list()),
    )
}

/// Returns the set that the lines of a key make. A line begins anew if it names no capability, or if the set is what
/// it is without any line. By default the key is unset or has this set.
pub fn summed(default: &Option<CapSet>, lines: &[Listed]) -> Option<CapSet>
    ensures line_by_line { result ≡ summed default.now lines.now }
{
    let mut set = same(default);
    for one in lines {
        set = with_value(default, &set, one);
    }
    set
}
