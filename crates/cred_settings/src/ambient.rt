//! Reads AmbientCapabilities= (systemd.exec(5)).
ghost use Rattle.std.specs.Prelude.{◌≡◌, IfOk};
ghost use Rattle.cred_settings.specs.Ambient.{ambient_of, ambient_notes};

use crate::cap_lists::cap_set_of_key;
use dropin_merge::Resolved;
use dropin_merge::unit_values::Said;
use site_table::CapSet;
use std::alloc::{AllocError, Global};

/// Reads the ambient set that a service starts with from AmbientCapabilities=. The set is empty without this key. Lines are
/// read as in CapabilityBoundingSet=, with the same notes. For a version of systemd an empty ambient set counts as one
/// that no line has changed.
pub fn ambient_set(alloc: Global, unit: &Resolved) -> Result<Said<CapSet>, AllocError>
    ensures line_by_line { IfOk result (λ said. said.what ≡ ambient_of unit.now) }
    ensures noted { IfOk result (λ said. said.notes.items ≡ ambient_notes unit.now) }
{
    cap_set_of_key(alloc, unit, "AmbientCapabilities", Some(CapSet::empty()))
}
