//! Defines conditions on a word: under a mask it is less than a number, equal to it or greater.
ghost use Rattle.std.specs.Prelude.{◌≡◌, ◌<◌, ℕ, not, ◌^◌};
ghost use Rattle.filter_check.specs.word_sets.Conditions.{meets, wants};

/// The orders of a masked word and a number that meet a condition.
#[derive(Clone, Copy, PartialEq, Eq, Hash)]
pub struct Orders {
    pub below: bool,
    pub equal: bool,
    pub above: bool,
}

/// A condition on a word: the order of the masked word and the number is one of these.
#[derive(Clone, Copy, PartialEq, Eq, Hash)]
pub struct Condition {
    pub mask: u32,
    pub number: u32,
    pub orders: Orders,
}

impl Orders {
    /// Returns exactly the other orders.
    pub fn others(self) -> Self
        ensures opposite { (a b : ℕ) → wants result a b ≡ not (wants self a b) }
    {
        Orders {
            below: !self.below,
            equal: !self.equal,
            above: !self.above,
        }
    }

    // Says whether the order of two numbers is one of these.
    fn has(self, a: u32, b: u32) -> bool
        ensures { result ≡ wants self a b }
    {
        if a < b {
            return self.below;
        }
        if a == b { self.equal } else { self.above }
    }
}

impl Condition {
    /// Returns the condition that a word meets exactly if it does not meet this one.
    pub fn failing(self) -> Self
        ensures opposite { (word : ℕ) → meets result word ≡ not (meets self word) }
    {
        Condition {
            mask: self.mask,
            number: self.number,
            orders: self.orders.others(),
        }
    }

    /// Says whether the word meets the condition.
    pub fn is_met_by(self, word: u32) -> bool
        ensures by_the_word { result ≡ meets self word }
    {
        self.orders.has(word & self.mask, self.number)
    }
}
