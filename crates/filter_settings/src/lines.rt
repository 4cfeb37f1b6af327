//! Finds the lines of a list that are in force.
ghost use Rattle.std.specs.Prelude.{◌≡◌, not};
ghost use Rattle.std.specs.List.{suffix_len};
ghost use Rattle.dropin_merge.specs.unit_values.Listed.{is_reset};
ghost use Rattle.filter_settings.specs.Lines.{in_force};

use dropin_merge::unit_values::Listed;

// Counts the values after the last empty one.
fn count_in_force(all: &[Listed]) -> usize
    ensures { result ≡ suffix_len (λ one. not (is_reset one)) all.now }
{
    all.iter().rev().take_while(|one| !one.is_reset()).count()
}

/// Returns the lines after the last empty value. An empty value resets what was listed before it.
pub fn in_force(all: &[Listed]) -> &[Listed]
    ensures behind_the_last_reset { result.now ≡ in_force all.now }
{
    &all[all.len() - count_in_force(all)..]
}
