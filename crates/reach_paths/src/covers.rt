//! Tests if the entries of a mount table cover a path. The path is given as a front and a rest, and is never built.

ghost use Rattle.std.specs.Prelude.{◌≡◌, ◌++◌, drop, is_some};
ghost use Rattle.std.specs.List.{list_any};
ghost use Rattle.kernel_laws.specs.abs_path.Paths.{parts_of};
ghost use Rattle.kernel_laws.specs.abs_path.Prefix.{IsRest, is_prefix, is_behind, behind_text};
ghost use Rattle.kernel_laws.specs.kern_mounts.Mounts.{steps_of};
ghost use Rattle.kernel_laws.specs.kern_mounts.Entry.{leads_to};

use abs_path::AbsPath;
use kernel_laws::MountTable;

// Returns whether a text is empty or begins with a slash.
fn is_behind(rest: &str) -> bool
    ensures { result ≡ is_behind rest.now }
{
    match rest.as_bytes().first() {
        None => true,
        Some(byte) => *byte == b'/',
    }
}

// Returns whether a text equals the other, or continues it with a slash.
fn goes_on(text: &str, front: &str) -> bool
    ensures { result ≡ is_some (behind_text front.now text.now) }
{
    match text.strip_prefix(front) {
        None => false,
        Some(rest) => is_behind(rest),
    }
}

// Returns whether the place leads to the path that the front and the rest make, by whole parts.
fn leads_to(place: &AbsPath, front: &AbsPath, rest: &str) -> bool
    requires { IsRest rest.now }
    ensures { result ≡ is_prefix place.now (front.now ++ parts_of rest.now) }
{
    match front.rest(place) {
        None => place.is_prefix(front),
        Some(further) => goes_on(rest, further),
    }
}

/// Returns whether an entry of this number or a later one covers the path that the front and the rest make: its place
/// is that path or leads to it. What `AbsPath::rest` answers is a rest, and so is nothing. It takes no memory.
pub fn is_covered(table: &MountTable, from: usize, front: &AbsPath, rest: &str) -> bool
    requires may_be_joined { IsRest rest.now }
    ensures some_place_leads_there { result ≡ list_any (leads_to (front.now ++ parts_of rest.now)) (drop from (steps_of table.now)) }
{
    for at in from..table.len() {
        if leads_to(&table.entry(at).place, front, rest) {
            return true;
        }
    }
    false
}
