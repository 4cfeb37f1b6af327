//! Names the capabilities, from the one table of their bits.

ghost use Rattle.std.specs.Prelude.{◌≡◌, ◌↔◌, ℕ, ◌≤◌, Some, IfSome};
ghost use Rattle.cap_sets.specs.Names.{name_of, in_lower_case};

use crate::bits::Bits;
use crate::set::CapSet;
use bitflags::{Flag, Flags};
use linux_numbers::capabilities::CAP_LAST_CAP;

impl CapSet {
    /// Returns the number of the capability of this name in any ASCII case, such as `cap_chown`, or None for another text.
    pub fn from_name(name: &str) -> Option<u8>
        ensures named { (number : ℕ) → number ≤ 40
            → (result ≡ Some number) ↔ (in_lower_case (name_of number) ≡ in_lower_case name.now) }
        ensures in_range { IfSome result (λ number. number ≤ 40) }
    {
        for cap in 0..CAP_LAST_CAP + 1 {
            if CapSet::name(cap).eq_ignore_ascii_case(name) {
                return Some(cap);
            }
        }
        None
    }

    /// Returns the name of the capability of this number, at most 40, such as `CAP_CHOWN`.
    pub fn name(cap: u8) -> &'static str
        requires { cap ≤ 40 }
        ensures its_name { result.now ≡ name_of cap }
    {
        let flags: &'static [Flag<Bits>] = Bits::flags();
        flags[cap as usize].name
    }
}
