//! Chooses how the word of a test is looked at.
ghost use Rattle.std.specs.Prelude.{◌≡◌};
ghost use Rattle.seccomp_compile.specs.Looks.{asks_for_a_bit as asks, mask_of, comparison_of};

use crate::offsets::WHOLE_WORD;
use crate::tree::Comparison;
use call_rules::Test;

// Returns whether the test asks for one bit.
fn asks_for_a_bit(test: Test) -> bool
    ensures { result ≡ asks test }
{
    test.mask == test.value && test.mask.is_power_of_two()
}

/// Returns the mask of the word that is compared. If a test asks for one bit, the whole word is compared by that bit,
/// so that the tests after it can compare the same word.
pub fn mask_for(test: Test) -> u32
    ensures of_the_test { result ≡ mask_of test }
{
    if asks_for_a_bit(test) {
        WHOLE_WORD
    } else {
        test.mask
    }
}

/// Returns how the word is compared with the value of the test.
pub fn comparison_for(test: Test) -> Comparison
    ensures of_the_test { result ≡ comparison_of test }
{
    if asks_for_a_bit(test) {
        Comparison::AnyBit
    } else {
        Comparison::Equal
    }
}
