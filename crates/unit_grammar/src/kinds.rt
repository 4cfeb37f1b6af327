// Finds the kind of a joined line.
//
// It ignores white space at the ends of the line. The header, the key and the value are borrowed from it.
ghost use Rattle.std.specs.Prelude.{◌≡◌};
ghost use Rattle.std.specs.Option.{option_map};
ghost use Rattle.unit_grammar.specs.Kinds.{behind, before, cut_at, named_header, keyed, assigned, filled, trimmed_kind, kind_of, seen};

use crate::spaces::trimmed;

/// The kind of a joined line.
#[derive(Clone, Copy)]
pub enum Kind<'a> {
    /// The line has nothing but white space.
    Skipped,
    /// `[NAME]`, with the name.
    Header(&'a str),
    /// The line begins with `[` and does not end with `]`.
    BadHeader,
    /// The line has no `=`, or no key before it.
    NoEquals,
    /// A key and a value.
    Assigns(&'a str, &'a str),
}

fn behind_bracket(line: &str) -> Option<&str>
    ensures { option_map (λ rest. rest.now) result ≡ behind 91 line.now }
{
    line.strip_prefix('[')
}

fn before_bracket(rest: &str) -> Option<&str>
    ensures { option_map (λ name. name.now) result ≡ before 93 rest.now }
{
    rest.strip_suffix(']')
}

fn sides_of_equals(line: &str) -> Option<(&str, &str)>
    ensures { option_map (λ sides. (sides.0.now, sides.1.now)) result ≡ cut_at 61 line.now }
{
    line.split_once('=')
}

fn header_kind(rest: &str) -> Kind<'_>
    ensures { seen result ≡ named_header (before 93 rest.now) }
{
    before_bracket(rest).map_or(Kind::BadHeader, |section| Kind::Header(section))
}

fn keyed_kind<'a>(key: &'a str, value: &'a str) -> Kind<'a>
    ensures { seen result ≡ keyed key.now value.now }
{
    if key.is_empty() {
        Kind::NoEquals
    } else {
        Kind::Assigns(key, value)
    }
}

fn assigned_kind(line: &str) -> Kind<'_>
    ensures { seen result ≡ assigned (cut_at 61 line.now) }
{
    match sides_of_equals(line) {
        Some((key, value)) => keyed_kind(trimmed(key), trimmed(value)),
        None => Kind::NoEquals,
    }
}

fn filled_kind(line: &str) -> Kind<'_>
    ensures { seen result ≡ filled line.now (behind 91 line.now) }
{
    match behind_bracket(line) {
        Some(rest) => header_kind(rest),
        None => assigned_kind(line),
    }
}

fn kind_of_trimmed(line: &str) -> Kind<'_>
    ensures { seen result ≡ trimmed_kind line.now }
{
    if line.is_empty() {
        Kind::Skipped
    } else {
        filled_kind(line)
    }
}

/// Returns the kind of the line.
pub fn kind_of_line(line: &str) -> Kind<'_>
    ensures its_kind { seen result ≡ kind_of line.now }
{
    kind_of_trimmed(trimmed(line))
}
