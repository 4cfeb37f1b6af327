//! Reads CapabilityBoundingSet= (systemd.exec(5)).
ghost use Rattle.std.specs.Prelude.{◌≡◌, IfOk};
ghost use Rattle.cred_settings.specs.Bounding.{bounding_of, bounding_notes};

use crate::cap_lists::cap_set_of_key;
use dropin_merge::Resolved;
use dropin_merge::unit_values::Said;
use site_table::CapSet;
use std::alloc::{AllocError, Global};

/// Reads the bounding set of a service from CapabilityBoundingSet=. The set has all capabilities without this key.
///
/// A plain line replaces a set that equals its default, and is united with any other set. An inverted line with names
/// makes the set of all other capabilities if the set equals its default, and takes its names off any other set. `~`
/// alone gives all capabilities, and an empty value gives none. Names are read in any case.
///
/// A version of systemd looks at the capabilities that a line names. A line begins anew if it names none, or if the set
/// is unset: a plain line then gives its capabilities, and an inverted line all others. Otherwise a plain line adds its
/// capabilities, and an inverted line removes them. The set is unset before the first line, and after an inverted line
/// that names no capability. An unset set counts as all capabilities.
///
/// Values that cannot be expanded get notes first. Then lines that cannot be split, which change nothing, and unknown
/// names, which are skipped, get notes.
pub fn bounding_set(alloc: Global, unit: &Resolved) -> Result<Said<CapSet>, AllocError>
    ensures line_by_line { IfOk result (λ said. said.what ≡ bounding_of unit.now) }
    ensures noted { IfOk result (λ said. said.notes.items ≡ bounding_notes unit.now) }
{
    cap_set_of_key(alloc, unit, "CapabilityBoundingSet", None)
}
