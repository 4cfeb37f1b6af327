//! What holds of all facts, each the contract of a function that does nothing.

ghost use Rattle.std.specs.Prelude.{◌≡◌, ◌≤◌, ℕ, List, length, None};
ghost use Rattle.std.specs.List.{list_any};
ghost use Rattle.std.specs.Str.{bytes_eq};
ghost use Rattle.exec_settings.specs.call_table.Table.{Table};
ghost use Rattle.exec_settings.specs.dropin_merge.declared.resolved.Resolved.{Resolved};
ghost use Rattle.exec_settings.specs.Refusals.{refusal_of};
ghost use Rattle.exposure_score.specs.declared.facts.Fact.{Fact};
ghost use Rattle.exec_settings.specs.mount_settings.Written.{unit_written};
ghost use Rattle.exec_settings.specs.site_table.Table.{Site};
ghost use Rattle.exposure_score.specs.declared.service_facts.sandbox.Sandbox.{Sandbox};
ghost use Rattle.exposure_score.specs.service_facts.Facts.{AreTests, is_known};

/// A test has a fact exactly if it is known for the table of calls, whatever the settings.
pub fn known_tests_have_facts()
    ensures each { (sandbox : Sandbox) (table : Table) (facts : List Fact) (id : List ℕ) → AreTests sandbox table facts
        → list_any (λ fact. bytes_eq fact.id id) facts ≡ is_known id table }
{}

/// A unit whose settings are accepted writes at most 128 paths, so `facts` can be called for it.
pub fn accepted_units_write_few_paths()
    ensures few { (unit : Resolved) (table : Table) (site : Site) → refusal_of unit table site ≡ None → length (unit_written unit) ≤ 128 }
{}
