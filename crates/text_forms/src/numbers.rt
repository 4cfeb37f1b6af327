//! Reads and prints numbers.

ghost use Rattle.std.specs.Prelude.{◌≡◌, ◌≤◌, ◌++◌, OnOk, OnErr, decimal, nat_eq, codes, option_map};
ghost use Rattle.std.specs.List.{starts_with};
ghost use Rattle.text_forms.specs.Numbers.{numeral_value, decimal_value, hex_digits, number_value};

use itoa::Buffer;
use std::alloc::AllocError;

fn has_plus(digits: &str) -> bool
    ensures { result ≡ starts_with nat_eq digits.now (codes "+") }
{
    digits.as_bytes().starts_with(b"+")
}

// returns the text after `0x`, if the text begins with it
fn hex_digits(text: &str) -> Option<&str>
    ensures { option_map (λ digits. digits.now) result ≡ hex_digits text.now }
{
    text.strip_prefix("0x")
}

// returns the number of a numeral, which has digits of the radix and no sign
fn read_numeral(digits: &str, radix: u32) -> Option<u64>
    requires low { 2 ≤ radix }
    requires high { radix ≤ 36 }
    ensures { result ≡ numeral_value radix digits.now }
{
    if has_plus(digits) {
        return None;
    }
    u64::from_str_radix(digits, radix).ok()
}

/// Returns the number of a decimal text, one or more ASCII digits. It returns None for another form, and for 2^64 and above.
#[tactic(auto, unfolding(crate::specs::Numbers::decimal_value))]
pub fn read_decimal(text: &str) -> Option<u64>
    ensures decimal { result ≡ decimal_value text.now }
{
    read_numeral(text, 10)
}

/// Returns the number of a decimal text, or of `0x` and one or more hex digits of either case.
///
/// Leading zeros change nothing. It returns None for another form, and for 2^64 and above.
#[tactic(auto, unfolding(crate::specs::Numbers::number_value))]
pub fn read_u64(text: &str) -> Option<u64>
    ensures decimal_or_hex { result ≡ number_value text.now }
{
    match hex_digits(text) {
        Some(digits) => read_numeral(digits, 16),
        None => read_numeral(text, 10),
    }
}

/// Appends the number in decimal, without leading zeros. If memory runs out, `out` stays as it was.
pub fn push_u64(out: &mut Vec<u8>, n: u64) -> Result<(), AllocError>
    ensures appends_decimal { OnOk result (out.new.items ≡ out.old.items ++ decimal n) }
    ensures unchanged_on_error { OnErr result (out.new.items ≡ out.old.items) }
{
    let mut digits = Buffer::new();
    out.extend_from_slice(digits.format(n).as_bytes())
}
