//! Looks up keys in a value of the tree.

ghost use Rattle.std.specs.Prelude.{◌≡◌, map, option_map, option_copied};
ghost use Rattle.toml.specs.Data.{get};
ghost use Rattle.toml.specs.View.{view};
ghost use Rattle.toml_shapes.specs.Tree.{text_at, number_at, flag_at, elements_of, elements_at};

use toml::Value;

fn at<'a>(value: &'a Value, key: &str) -> Option<&'a Value>
    ensures { option_map (λ found. view found.now) result ≡ get key.now (view value.now) }
{
    value.get(key)
}

/// The text at a key, if there is one.
pub fn text_at<'a>(value: &'a Value, key: &str) -> Option<&'a str>
    ensures text_or_none { option_copied result ≡ text_at key.now (view value.now) }
{
    at(value, key)?.as_str()
}

/// The number at a key, if there is one.
pub fn number_at(value: &Value, key: &str) -> Option<i64>
    ensures number_or_none { result ≡ number_at key.now (view value.now) }
{
    at(value, key)?.as_integer()
}

/// The boolean at a key, if there is one.
pub fn flag_at(value: &Value, key: &str) -> Option<bool>
    ensures flag_or_none { result ≡ flag_at key.now (view value.now) }
{
    at(value, key)?.as_bool()
}

/// The elements of an array; none of anything else.
pub fn elements_of(value: &Value) -> &[Value]
    ensures elements_or_none { map view result.now ≡ elements_of (view value.now) }
{
    match value.as_array() {
        Some(array) => array.as_slice(),
        None => &[],
    }
}

/// The elements of the array at a key; none where there is no array.
pub fn elements_at<'a>(value: &'a Value, key: &str) -> &'a [Value]
    ensures all_in_order { map view result.now ≡ elements_at key.now (view value.now) }
{
    match at(value, key) {
        Some(found) => elements_of(found),
        None => &[],
    }
}
