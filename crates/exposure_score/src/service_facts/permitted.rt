//! What filters let through, by the names in a table of calls.

ghost use Rattle.std.specs.Prelude.{◌≡◌, map};
ghost use Rattle.exec_settings.specs.call_table.Table.{every_call};
ghost use Rattle.exec_settings.specs.filter_settings.filter_rules.Calls.{allows_call};
ghost use Rattle.exposure_score.specs.service_facts.Each.{is_marked, lets_through, permits_named, permits_internet};

use exec_settings::{CallTable, FilterSettings, GroupLine, permits_family};

fn is_marked(marks: &[bool], place: usize) -> bool
    ensures { result ≡ is_marked marks.now place }
{
    match marks.get(place) {
        Some(mark) => *mark,
        None => false,
    }
}

/// Returns whether SystemCallFilter= is off, or allows a member of the group. It takes marks at the calls that are allowed.
pub fn lets_through(
    calls: &CallTable,
    filters: &FilterSettings,
    allowed: &[bool],
    group: &GroupLine,
) -> bool
    requires marks { allowed.now ≡ map (λ call. allows_call calls.now filters.now call.name) (every_call calls.now) }
    ensures by_the_filters { result ≡ lets_through calls.now filters.now group.now }
{
    filters.calls.is_none()
        || group
            .members
            .list()
            .iter()
            .any(|place| is_marked(allowed, *place))
}

fn permits_named(calls: &CallTable, filters: &FilterSettings, name: &str) -> bool
    ensures { result ≡ permits_named calls.now filters.now name.now }
{
    match calls.family(name) {
        Some(number) => permits_family(&filters.families, number),
        None => false,
    }
}

/// Returns whether a family of the Internet is permitted.
pub fn permits_internet(calls: &CallTable, filters: &FilterSettings) -> bool
    ensures by_the_families { result ≡ permits_internet calls.now filters.now }
{
    permits_named(calls, filters, "AF_INET") || permits_named(calls, filters, "AF_INET6")
}
