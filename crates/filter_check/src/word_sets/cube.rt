//! Finds the bounds of words of which some bits are known, and sets one bit more.
ghost use Rattle.std.specs.Prelude.{◌≡◌, ◌<◌, ◌≤◌, ◌^◌, ℕ, ◌&&◌, Bool, true, false, bit_and};
ghost use Rattle.filter_check.specs.word_sets.Words.{is_in, is_set, same};

use crate::word_sets::known::Cube;

// Returns the word with the known bits, and with a 1 at each place that is not known.
fn greatest_with(known: u32, bits: u32) -> u32
    ensures covers { (word : ℕ) → word < 2 ^ 32 → bit_and word known ≡ bits → bit_and word result ≡ word }
{
    bits | !known
}

impl Cube {
    /// Makes the cube of all words.
    pub fn all() -> Self
        ensures every_word { (word : ℕ) → is_in result word ≡ true }
    {
        Cube { known: 0, bits: 0 }
    }

    /// Returns the least of the words.
    pub fn least(self) -> u32
        ensures is { result ≡ self.bits }
        ensures small { result < 2 ^ 32 }
    {
        self.bits
    }

    /// Returns the greatest of the words. Each of them has only bits of this one.
    pub fn greatest(self) -> u32
        ensures covers { (word : ℕ) → word < 2 ^ 32 → is_in self word ≡ true → bit_and word result ≡ word }
    {
        greatest_with(self.known, self.bits)
    }

    /// Returns the words that have this bit, at a place where no bit was known.
    pub fn with_bit(self, place: u32, set: bool) -> Cube
        requires place { place < 32 }
        requires unknown { is_set self.known place ≡ false }
        ensures those_with_the_bit { (word : ℕ) → is_in result word ≡ (is_in self word && same (is_set word place) set) }
        ensures more { self.known < result.known }
        ensures small { result.known < 2 ^ 32 }
    {
        let known = self.known | 1u32 << place;
        if set {
            return Cube {
                known,
                bits: self.bits | 1u32 << place,
            };
        }
        Cube {
            known,
            bits: self.bits,
        }
    }
}
