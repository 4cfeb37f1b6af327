//! Reads error numbers by name or in decimal (errno(3)).

ghost use Rattle.std.specs.Prelude.{◌≡◌, ◌≤◌, map, IfSome};
ghost use Rattle.linux_numbers.specs.Limits.{max_errno};
ghost use Rattle.text_forms.specs.Errnos.{number_beside, small_only, errno_value};

use crate::numbers::read_decimal;
use linux_numbers::errnos::errno_names;
use linux_numbers::limits::MAX_ERRNO;

// returns the number beside the first row of this name
#[tactic(auto, unfolding(crate::specs::Errnos::number_beside))]
fn number_beside(rows: &[(&str, u32)], name: &str) -> Option<u32>
    ensures { result ≡ number_beside (map (λ row. (row.0.now, row.1)) rows.now) name.now }
{
    for row in rows {
        if row.0 == name {
            return Some(row.1);
        }
    }
    None
}

// returns the number if a system call can return it as an error
fn small_only(number: u64) -> Option<u32>
    ensures { result ≡ small_only number }
{
    if number <= MAX_ERRNO as u64 {
        Some(number as u32)
    } else {
        None
    }
}

/// Returns the error number of a name, such as `EPERM`, or of a decimal text from 0 to 4095, and None for any other text.
#[tactic(auto, using(crate::proofs::Bounded::errno_bounded), unfolding(crate::specs::Errnos::errno_value))]
pub fn errno_number(text: &str) -> Option<u32>
    ensures named_or_decimal { result ≡ errno_value text.now }
    ensures small { IfSome result (λ number. number ≤ max_errno) }
{
    match number_beside(errno_names(), text) {
        Some(number) => Some(number),
        None => small_only(read_decimal(text)?),
    }
}
