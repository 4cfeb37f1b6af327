//! Laws of the made texts, each the contract of a function that does nothing.

ghost use Rattle.std.specs.Prelude.{◌≡◌, ℕ, Ok, Some};
ghost use Rattle.launcher.specs.call_table.Reading.{table_of};
ghost use Rattle.launcher.specs.site_table.Reading.{site_in, site_of_tree};
ghost use Rattle.toml.specs.Data.{table};
ghost use Rattle.launcher.specs.unit_grammar.Reading.{unit_of};
ghost use Rattle.launcher.specs.unit_names.Cutting.{name_of};
ghost use Rattle.sample_inputs.specs.Calls.{calls_text};
ghost use Rattle.sample_inputs.specs.CallTable.{sample_table};
ghost use Rattle.sample_inputs.specs.Site.{site_tree};
ghost use Rattle.sample_inputs.specs.Unit.{sample_name, unit_name, unit_said, unit_text};

/// The text of the calls is read as the table that its lines spell.
pub fn calls_are_read()
    ensures table { table_of calls_text ≡ Ok sample_table }
{}

/// The text of the unit is read as what it says, and its name is one of a service.
pub fn units_are_read()
    ensures unit { (n : ℕ) → unit_of (unit_text n) ≡ Ok (unit_said n) }
    ensures name { name_of unit_name ≡ Some sample_name }
{}

/// Nothing is wrong with the tree of the site, whatever the number.
pub fn sites_are_read()
    ensures site { (n : ℕ) → site_of_tree (Some (site_tree n)) ≡ Ok (site_in (table (site_tree n))) }
{}
