//! Defines a set of capabilities, and its algebra.
//!
//! A contract sees a set as the word of its bits, and its members by `has`.

ghost use Rattle.std.specs.Prelude.{◌≡◌, ◌↔◌, ℕ, ◌==◌, ◌<◌, ◌≤◌, ◌^◌, ◌&&◌, ◌||◌, not, false, nat_le, IsTrue, IsSome, IfSome};
ghost use Rattle.cap_sets.specs.Sets.{has, none, all, union, cut, minus, single, within, IsWithin};

use crate::bits::Bits;
use bitflags::Flags;
use std::marker::Model;

/// A set of capabilities: numbers 0 to 40, as capabilities(7) lists them.
#[derive(Clone, Copy, PartialEq, Eq)]
pub struct CapSet {
    bits: u64,
}

impl Model for CapSet {
    ghost use Rattle.std.specs.Prelude.{ℕ, ◌<◌, ◌^◌};

    ghost Value = { ℕ };

    ghost view = { λ set. set.bits };

    ghost invariant = { λ set. set.bits < 2 ^ 41 };

    ghost inverse = { λ word. record { bits = word } };
}

impl CapSet {
    /// Returns the empty set.
    #[tactic(auto, using(crate::proofs::Members::has_none), unfolding(crate::specs::Sets::none))]
    pub fn empty() -> CapSet
        ensures none { result ≡ none }
        ensures members { (number : ℕ) → has result number ≡ false }
    {
        CapSet { bits: 0 }
    }

    /// Returns the set of all 41 capabilities.
    #[tactic(auto, using(crate::proofs::Members::has_all), unfolding(crate::specs::Sets::all))]
    pub fn full() -> CapSet
        ensures all { result ≡ all }
        ensures members { (number : ℕ) → has result number ≡ nat_le number 40 }
    {
        CapSet {
            bits: (1 << 41) - 1,
        }
    }

    /// Returns the capabilities of either set.
    #[tactic(auto, using(crate::proofs::Words::or_below, crate::proofs::Members::has_union), unfolding(crate::specs::Sets::union))]
    pub fn union(self, other: CapSet) -> CapSet
        ensures union { result ≡ union self other }
        ensures members { (number : ℕ) → has result number ≡ (has self number || has other number) }
    {
        CapSet {
            bits: Bits(self.bits).union(Bits(other.bits)).0,
        }
    }

    /// Returns the capabilities of this set that the other lacks.
    #[tactic(auto, using(crate::proofs::Words::minus_below, crate::proofs::Members::has_minus), unfolding(crate::specs::Sets::minus))]
    pub fn minus(self, other: CapSet) -> CapSet
        ensures minus { result ≡ minus self other }
        ensures members { (number : ℕ) → has result number ≡ (has self number && not (has other number)) }
    {
        let bits = Bits(self.bits);
        let both = bits.intersection(Bits(other.bits));
        CapSet {
            bits: bits.symmetric_difference(both).0,
        }
    }

    /// Returns the capabilities of both sets.
    #[tactic(auto, using(crate::proofs::Words::and_below, crate::proofs::Members::has_cut), unfolding(crate::specs::Sets::cut))]
    pub fn cut(self, other: CapSet) -> CapSet
        ensures cut { result ≡ cut self other }
        ensures members { (number : ℕ) → has result number ≡ (has self number && has other number) }
    {
        CapSet {
            bits: Bits(self.bits).intersection(Bits(other.bits)).0,
        }
    }

    /// Returns whether the set has the capability of this number. No set has a number above 40.
    #[tactic(auto, using(crate::proofs::Words::shifted, crate::proofs::Words::shifted_out), unfolding(crate::specs::Sets::has))]
    pub fn contains(self, cap: u8) -> bool
        ensures has { result ≡ has self cap }
        ensures none_above_40 { IsTrue result → cap ≤ 40 }
    {
        cap <= 40 && (self.bits >> cap) & 1 == 1
    }

    /// Returns whether the other set has each capability of this set.
    #[tactic(auto, unfolding(crate::specs::Sets::within))]
    pub fn within(self, other: CapSet) -> bool
        ensures test { result ≡ within self other }
        ensures each { IsTrue result ↔ IsWithin self other }
    {
        Bits(other.bits).contains(Bits(self.bits))
    }

    /// Returns this set with the capability of this number, at most 40.
    #[tactic(auto, using(crate::proofs::Words::single_below, crate::proofs::Words::or_below, crate::proofs::Members::has_with), unfolding(crate::specs::Sets::union, crate::specs::Sets::single))]
    pub fn with(self, cap: u8) -> CapSet
        requires { cap ≤ 40 }
        ensures with { result ≡ union self (single cap) }
        ensures members { (number : ℕ) → has result number ≡ (has self number || number == cap) }
    {
        CapSet {
            bits: Bits(self.bits).union(Bits(1 << cap)).0,
        }
    }

    /// Returns the word of the set, as capset(2) takes it: bit 0 for capability 0.
    pub fn bits(self) -> u64
        ensures word { result ≡ self }
        ensures below { result < 2 ^ 41 }
    {
        self.bits
    }

    /// Returns the set of a word, or None exactly if a bit above 40 is set.
    pub fn from_bits(n: u64) -> Option<CapSet>
        ensures known_bits { IsSome result ↔ (n < 2 ^ 41) }
        ensures set { IfSome result (λ set. set ≡ n) }
    {
        if n < 1 << 41 {
            Some(CapSet { bits: n })
        } else {
            None
        }
    }
}
