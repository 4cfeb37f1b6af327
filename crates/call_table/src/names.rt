// Defines names of calls, groups and families.
ghost use Rattle.std.specs.Prelude.{◌≡◌, Some, IfOk};
ghost use Rattle.std.specs.List.{list_all};
ghost use Rattle.std.specs.Option.{option_map};
ghost use Rattle.call_table.specs.Names.{is_name_byte, is_name, behind_at};

use std::alloc::{AllocError, Global};
use std::fmt;
use std::marker::Model;

/// The name of a call, a group or a family, which contracts see as its bytes.
#[derive(Debug, Drop)]
pub struct Name {
    text: String,
}

impl Model for Name {
    ghost use Rattle.std.specs.Prelude.{List, ℕ};
    ghost use Rattle.std.specs.String.{string_bytes};

    ghost Value = { List ℕ };

    ghost view = { λ name. string_bytes name.text };
}

impl fmt::Display for Name {
    ghost output = { λ name. Some name };

    fn fmt<W: fmt::Write>(&self, f: &mut fmt::Formatter<W>) -> fmt::Result {
        f.write_str(self.text.as_str())
    }
}

impl Name {
    /// Returns a copy of a text.
    pub fn new(alloc: Global, text: &str) -> Result<Name, AllocError>
        ensures same_text { IfOk result (λ name. name ≡ text.now) }
    {
        Ok(Name {
            text: String::from_str(alloc, text)?,
        })
    }

    /// Returns the text of the name.
    pub fn as_str(&self) -> &str
        ensures same_text { result.now ≡ self.now }
    {
        self.text.as_str()
    }
}

fn is_name_byte(byte: u8) -> bool
    ensures { result ≡ is_name_byte byte }
{
    byte.is_ascii_alphanumeric() || (byte == b'_' || byte == b'-')
}

fn has_name_bytes(word: &str) -> bool
    ensures { result ≡ list_all is_name_byte word.now }
{
    word.as_bytes().iter().all(|byte| is_name_byte(*byte))
}

/// Returns whether the word is a name: ASCII letters, digits, `_` and `-`, at least one.
pub fn is_name(word: &str) -> bool
    ensures by_its_bytes { result ≡ is_name word.now }
{
    !word.is_empty() && has_name_bytes(word)
}

/// Returns the name of the group in a word `@NAME`.
pub fn behind_at(word: &str) -> Option<&str>
    ensures behind_the_at { option_map (λ name. name.now) result ≡ behind_at word.now }
{
    word.strip_prefix('@')
}
