//! Makes and cuts sets of call data, word by word.
ghost use Rattle.std.specs.Prelude.{◌≡◌, ◌<◌, ◌≤◌, ℕ, ◌+◌, ◌*◌, ◌/◌, ◌%◌, ◌^◌, IfOk, get_or, set, [], true};
ghost use Rattle.filter_check.specs.word_sets.Conditions.{meets_all};
ghost use Rattle.seccomp_compile.specs.bpf_code.declared.machine.CallData.{CallData};
ghost use Rattle.seccomp_compile.specs.bpf_code.Effects.{words_of};
ghost use Rattle.std.specs.List.{AllZip};
ghost use Rattle.seccomp_compile.specs.bpf_code.Meaning.{IsCallData};
ghost use Rattle.filter_check.specs.filter_paths.Regions.{IsWithin, sets_of};

use crate::filter_paths::region::{Region, WORD_COUNT};
use crate::word_sets::WordSet;
use seccomp_compile::CallData;
use std::alloc::{AllocError, Global};

impl Region {
    /// Makes the set of all call data.
    pub fn all(alloc: Global) -> Result<Self, AllocError>
        ensures every_call { IfOk result (λ region. (input : CallData) → IsCallData input → IsWithin region input) }
    {
        let mut words = Vec::with_capacity(alloc, WORD_COUNT)?;
        while words.len() < WORD_COUNT {
            words.push(WordSet::all(alloc))?;
        }
        Ok(Region { words })
    }

    /// Copies the set.
    pub fn copy(&self, alloc: Global) -> Result<Self, AllocError>
        ensures same { IfOk result (λ copy. sets_of copy ≡ sets_of self.now) }
    {
        let mut words = Vec::with_capacity(alloc, WORD_COUNT)?;
        for set in &self.words {
            words.push(set.copy(alloc)?)?;
        }
        Ok(Region { words })
    }

    /// Returns the set of the word at a place.
    pub fn word(&self, at: usize) -> &WordSet
        requires { at < 16 }
        ensures is { result.now.conditions.items ≡ get_or (sets_of self.now) at [] }
    {
        &self.words[at]
    }

    /// Returns the set with this set for the word at a place, and with the other words as before.
    pub fn with_word(self, at: usize, word: WordSet) -> Self
        requires place { at < 16 }
        ensures sets_the_word { sets_of result ≡ set (sets_of self) at word.conditions.items }
    {
        let Region { mut words } = self;
        words[at] = word;
        Region { words }
    }

    // Returns the least word of the set at a place.
    fn least_word(&self, at: usize) -> u32
        requires { at < 16 }
        ensures is_one { meets_all (get_or (sets_of self.now) at []) result ≡ true }
        ensures is_least { (word : ℕ) → word < 2 ^ 32 → meets_all (get_or (sets_of self.now) at []) word ≡ true → result ≤ word }
    {
        self.word(at).least
    }

    // Returns the least words of a pair of sets, as one number.
    fn number(&self, at: usize) -> u64
        requires { at < 8 }
        ensures low { meets_all (get_or (sets_of self.now) (2 * at) []) (result % 2 ^ 32) ≡ true }
        ensures high { meets_all (get_or (sets_of self.now) (2 * at + 1) []) (result / 2 ^ 32) ≡ true }
        ensures least_low { (word : ℕ) → word < 2 ^ 32 → meets_all (get_or (sets_of self.now) (2 * at) []) word ≡ true → result % 2 ^ 32 ≤ word }
        ensures least_high { (word : ℕ) → word < 2 ^ 32 → meets_all (get_or (sets_of self.now) (2 * at + 1) []) word ≡ true → result / 2 ^ 32 ≤ word }
    {
        let low = self.least_word(2 * at);
        let high = self.least_word(2 * at + 1);
        u64::from(low) | u64::from(high) << 32
    }

    /// Returns the least of the data, by its words in order of their offsets.
    pub fn least(&self) -> CallData
        ensures fits { IsCallData result }
        ensures is_one { IsWithin self.now result }
        ensures is_least { (input : CallData) → IsCallData input → IsWithin self.now input → AllZip (λ (one other : ℕ). one ≤ other) (words_of result) (words_of input) }
    {
        CallData {
            nr: self.least_word(0),
            arch: self.least_word(1),
            ip: self.number(1),
            args: [
                self.number(2),
                self.number(3),
                self.number(4),
                self.number(5),
                self.number(6),
                self.number(7),
            ],
        }
    }
}
