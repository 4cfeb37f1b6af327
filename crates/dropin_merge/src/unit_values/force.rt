// Finds the values of a list that are in force.
ghost use Rattle.std.specs.Prelude.{◌≡◌};
ghost use Rattle.std.specs.List.{suffix_len};
ghost use Rattle.dropin_merge.specs.unit_values.Values.{in_force, is_filled};

use crate::unit_values::value::Value;

// Returns whether a value is not empty.
fn is_filled(value: &Value) -> bool
    ensures { result ≡ is_filled value.now }
{
    !value.text.as_str().is_empty()
}

// Counts the values after the last empty one.
fn count_in_force(values: &[Value]) -> usize
    ensures { result ≡ suffix_len is_filled values.now }
{
    values
        .iter()
        .rev()
        .take_while(|value| is_filled(value))
        .count()
}

/// Returns the values in force: the values after the last empty one, which resets the values before it.
pub fn in_force(values: &[Value]) -> &[Value]
    ensures behind_the_last_empty { result.now ≡ in_force values.now }
{
    &values[values.len() - count_in_force(values)..]
}
