//! States laws of names. Each is the contract of a function that does nothing.
ghost use Rattle.std.specs.Prelude.{◌≡◌, ◌↔◌, List, ℕ, Option, Some};
ghost use Rattle.unit_names.specs.Cutting.{name_of};
ghost use Rattle.unit_names.specs.Expansion.{expansion, Expands};
ghost use Rattle.unit_names.specs.Names.{Name, Names};
ghost use Rattle.unit_names.specs.Unescaping.{unescaped, Unescapes};
ghost use Rattle.unit_names.specs.declared.version.Version.{Version};

/// `UnitName::read` returns the name that the text spells, if its parts are allowed.
pub fn names_are_spelled()
    ensures reading_is_spelling { (text : List ℕ) (name : Name) → (name_of text ≡ Some name) ↔ Names text name }
{}

/// `expand` returns the joined texts of the pieces of a value. An escaped text, which some specifiers have, also consists of pieces
/// and unescapes to their bytes.
pub fn values_are_in_pieces()
    ensures expanding_is_by_pieces { (systemd : Option Version) (name : Name) (value text : List ℕ) →
        (expansion systemd name value ≡ Some text) ↔ Expands systemd name value text }
    ensures unescaping_is_by_pieces { (text plain : List ℕ) → (unescaped text ≡ Some plain) ↔ Unescapes text plain }
{}
