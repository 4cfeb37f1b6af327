//! The keys that a table may have, with the shape of each value.

ghost use Rattle.std.specs.Prelude.{◌≡◌, map, string_bytes};
ghost use Rattle.std.specs.List.{list_all};
ghost use Rattle.toml.specs.View.{view};
ghost use Rattle.toml_shapes.specs.Keys.{known, is_held, is_text, is_number, is_table, has_shape, has_if_needed, has_keys};

use crate::tree::elements_of;
use toml::{Table, Value};

/// The shape of the value at a key.
#[derive(Clone, Copy)]
pub enum Shape {
    Text,
    Number,
    Flag,
    /// An array of texts.
    Texts,
    /// An array of numbers.
    Numbers,
    /// An array of tables.
    Tables,
}

/// Whether a key must be there.
#[derive(Clone, Copy)]
pub enum Need {
    Must,
    May,
}

/// A key of a table: its name, the shape of its value, and whether it must be there.
pub type Key = (&'static str, Shape, Need);

fn is_text(value: &Value) -> bool
    ensures { result ≡ is_text (view value.now) }
{
    value.is_str()
}

fn is_number(value: &Value) -> bool
    ensures { result ≡ is_number (view value.now) }
{
    value.is_integer()
}

fn are_texts(values: &[Value]) -> bool
    ensures { result ≡ list_all (λ value. is_text (view value)) values.now }
{
    values.iter().all(|value| is_text(value))
}

fn are_numbers(values: &[Value]) -> bool
    ensures { result ≡ list_all (λ value. is_number (view value)) values.now }
{
    values.iter().all(|value| is_number(value))
}

fn are_tables(values: &[Value]) -> bool
    ensures { result ≡ list_all (λ value. is_table (view value)) values.now }
{
    values.iter().all(|value| value.is_table())
}

impl Shape {
    // whether the value has this shape
    fn fits(self, value: &Value) -> bool
        ensures { result ≡ has_shape self (view value.now) }
    {
        match self {
            Shape::Text => is_text(value),
            Shape::Number => is_number(value),
            Shape::Flag => value.is_bool(),
            Shape::Texts => value.is_array() && are_texts(elements_of(value)),
            Shape::Numbers => value.is_array() && are_numbers(elements_of(value)),
            Shape::Tables => value.is_array() && are_tables(elements_of(value)),
        }
    }
}

// whether the key is known and may have this value
#[tactic(auto, unfolding(crate::specs::Keys::is_held))]
fn is_known(keys: &[Key], key: &str, value: &Value) -> bool
    ensures { result ≡ is_held keys.now key.now (view value.now) }
{
    keys.iter().any(|one| key == one.0 && one.1.fits(value))
}

fn each_is_known(keys: &[Key], table: &Table) -> bool
    ensures { result
        ≡ list_all (λ entry. is_held keys.now (string_bytes entry.0) (view entry.1)) table.now.entries }
{
    table.iter().all(|(key, value)| is_known(keys, key, value))
}

fn lacks_none(keys: &[Key], value: &Value) -> bool
    ensures { result ≡ list_all (λ one. has_if_needed one.2 one.0.now (view value.now)) keys.now }
{
    keys.iter().all(|one| matches!(one.2, Need::May) || value.get(one.0).is_some())
}

/// Returns whether the value is a table with these keys alone, and each that must be there.
pub fn has_keys(keys: &[Key], value: &Value) -> bool
    ensures known_and_needed { result ≡ has_keys (map known keys.now) (view value.now) }
{
    match value.as_table() {
        Some(table) => each_is_known(keys, table) && lacks_none(keys, value),
        None => false,
    }
}
