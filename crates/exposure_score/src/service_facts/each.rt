//! The tests of a line of the table; some lines have one test for each name of a kind.

ghost use Rattle.std.specs.Prelude.{◌≡◌, map};
ghost use Rattle.std.specs.List.{list_any, range_with_len};
ghost use Rattle.std.specs.Str.{bytes_eq};
ghost use Rattle.exec_settings.specs.cap_sets.Names.{name_of as cap_name};
ghost use Rattle.exec_settings.specs.filter_settings.filter_rules.NamespaceTypes.{all_types};
ghost use Rattle.exec_settings.specs.linux_numbers.Namespaces.{name_of as type_name};
ghost use Rattle.exposure_score.specs.service_facts.Each.{names, has_family, has_internet};
ghost use Rattle.exposure_score.specs.service_facts.Facts.{is_of_line, is_known};

use crate::service_facts::lines::{Line, Matter, table};
use exec_settings::linux_numbers::namespaces::NamespaceType;
use exec_settings::{CallLine, CallTable, CapSet, GroupLine, all_types};

fn has_family(calls: &CallTable, name: &str) -> bool
    ensures { result ≡ has_family calls.now name.now }
{
    calls.family(name).is_some()
}

/// Returns whether the table has both families of the Internet, and no family named after both.
pub fn has_internet(calls: &CallTable) -> bool
    ensures both_families { result ≡ has_internet calls.now }
{
    has_family(calls, "AF_INET")
        && has_family(calls, "AF_INET6")
        && !has_family(calls, "AF_INET_INET6")
}

fn is_cap(name: &str) -> bool
    ensures { result ≡ list_any (λ one. bytes_eq one name.now) (map cap_name (range_with_len 0 41)) }
{
    (0..41u8).any(|cap| CapSet::name(cap) == name)
}

fn is_type(kinds: &[NamespaceType], name: &str) -> bool
    ensures { result ≡ list_any (λ one. bytes_eq one name.now) (map type_name kinds.now) }
{
    kinds.iter().any(|kind| kind.name() == name)
}

fn is_family(families: &[CallLine], name: &str) -> bool
    ensures { result ≡ list_any (λ one. bytes_eq one name.now) (map (λ family. family.name) families.now) }
{
    families.iter().any(|family| family.name.as_str() == name)
}

fn is_group(groups: &[GroupLine], name: &str) -> bool
    ensures { result ≡ list_any (λ one. bytes_eq one name.now) (map (λ group. group.name) groups.now) }
{
    groups.iter().any(|group| group.name.as_str() == name)
}

// Returns whether an identifier of a line may end like this: the line has a test of this matter.
fn is_end(calls: &CallTable, matter: Matter, end: &str) -> bool
    ensures { result ≡ list_any (λ one. bytes_eq one end.now) (names calls.now matter) }
{
    match matter {
        Matter::EachCapability => is_cap(end),
        Matter::EachNamespaceType => is_type(all_types(), end),
        Matter::EachFamily => is_family(calls.families(), end),
        Matter::EachGroup => is_group(calls.groups(), end),
        Matter::InternetFamilies => has_internet(calls) && end.is_empty(),
        _ => end.is_empty(),
    }
}

fn is_of_line(calls: &CallTable, id: &str, line: &Line) -> bool
    ensures { result ≡ is_of_line calls.now id.now (line.now.0.now, line.now.1) }
{
    match id.strip_prefix(line.0) {
        Some(end) => is_end(calls, line.1, end),
        None => false,
    }
}

fn is_of_a_line(calls: &CallTable, id: &str, lines: &[Line]) -> bool
    ensures { result ≡ list_any (λ line. is_of_line calls.now id.now (line.0.now, line.1)) lines.now }
{
    lines.iter().any(|line| is_of_line(calls, id, line))
}

/// Returns whether settings decide the test of this identifier, for a table of calls.
pub fn known_test(id: &str, calls: &CallTable) -> bool
    ensures in_the_table { result ≡ is_known id.now calls.now }
{
    is_of_a_line(calls, id, table())
}
