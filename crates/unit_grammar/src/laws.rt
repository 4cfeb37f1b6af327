//! States laws of unit files. Each is the contract of a function that does nothing.
ghost use Rattle.std.specs.Prelude.{◌≡◌, ◌↔◌, ℕ, List};
ghost use Rattle.unit_grammar.specs.declared.joined.Line.{Line};
ghost use Rattle.unit_grammar.specs.Kinds.{Kind, kind_of};
ghost use Rattle.unit_grammar.specs.Lines.{joined_lines};
ghost use Rattle.unit_grammar.specs.Meaning.{Means};
ghost use Rattle.unit_grammar.specs.Spaces.{trim};
ghost use Rattle.unit_grammar.specs.Stretches.{Joins};

/// `read_unit` joins stretches of a file to lines, and takes the meaning of a joined line from the text between the white space
/// at its ends.
pub fn joined_lines_are_read()
    ensures joining_is_by_stretches { (bytes : List ℕ) (lines : List Line) → (joined_lines bytes ≡ lines) ↔ Joins bytes lines }
    ensures kinds_are_meanings { (line : List ℕ) (kind : Kind) → (kind_of line ≡ kind) ↔ Means (trim line) kind }
{}
