//! States laws of unit values. Each is the contract of a function that does nothing.
ghost use Rattle.std.specs.Prelude.{◌≡◌, ℕ, List};
ghost use Rattle.dropin_merge.specs.declared.resolved.Resolved.{Resolved};
ghost use Rattle.dropin_merge.specs.unit_values.Assignments.{service_alone, service_assignments};
ghost use Rattle.dropin_merge.specs.unit_values.Values.{values_of, notes_of, written_values};

/// Assignments of other sections change nothing: a unit without them gives the same answers.
pub fn other_sections()
    ensures no_assignments { (unit : Resolved) → service_assignments (service_alone unit) ≡ service_assignments unit }
    ensures no_values { (unit : Resolved) (key : List ℕ) → values_of (service_alone unit) key ≡ values_of unit key }
    ensures none_written { (unit : Resolved) (key : List ℕ) → written_values (service_alone unit) key ≡ written_values unit key }
    ensures no_notes { (unit : Resolved) (key : List ℕ) → notes_of (service_alone unit) key ≡ notes_of unit key }
{}
