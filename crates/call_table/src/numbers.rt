// Reads numbers, and names of capabilities.
ghost use Rattle.std.specs.Prelude.{◌≡◌, ◌≤◌, IfSome};
ghost use Rattle.std.specs.List.{list_all};
ghost use Rattle.call_table.specs.Numbers.{is_lower_hex, arch_of, number_of, cap_of};

use cap_sets::CapSet;
use text_forms::read_decimal;

/// The number of capabilities: CAP_LAST_CAP and one, linux/capability.h.
const CAPABILITIES: u8 = 41;

fn is_lower_hex(byte: u8) -> bool
    ensures { result ≡ is_lower_hex byte }
{
    byte.is_ascii_digit() || (byte >= b'a' && byte <= b'f')
}

fn are_lower_hex(digits: &str) -> bool
    ensures { result ≡ list_all is_lower_hex digits.now }
{
    digits.as_bytes().iter().all(|byte| is_lower_hex(*byte))
}

/// Returns the architecture of eight hex digits in lower case.
#[tactic(auto, unfolding(crate::specs::Numbers::arch_of))]
pub fn read_arch(digits: &str) -> Option<u32>
    ensures its_arch { result ≡ arch_of digits.now }
{
    if digits.len() == 8 && are_lower_hex(digits) {
        u32::from_str_radix(digits, 16).ok()
    } else {
        None
    }
}

/// Returns the number of a decimal text, below 2^32.
#[tactic(auto, unfolding(crate::specs::Numbers::number_of))]
pub fn read_number(digits: &str) -> Option<u32>
    ensures by_its_digits { result ≡ number_of digits.now }
{
    let number = read_decimal(digits)?;
    u32::try_from(number).ok()
}

/// Returns the number of the capability of exactly this name.
pub fn read_cap(word: &str) -> Option<u8>
    ensures named { result ≡ cap_of word.now }
    ensures in_range { IfSome result (λ number. number ≤ 40) }
{
    for cap in 0..CAPABILITIES {
        if CapSet::name(cap) == word {
            return Some(cap);
        }
    }
    None
}
