//! Defines sets of call data, word by word.
ghost use Rattle.std.specs.Prelude.{◌≡◌, length};

use crate::word_sets::WordSet;

/// The number of words in the data of a call.
pub const WORD_COUNT: usize = 16;

/// The call data whose words are each in the set of its place.
#[derive(Drop)]
pub struct Region {
    pub words: Vec<WordSet>,
    ghost whole: { length words.items ≡ 16 },
}
