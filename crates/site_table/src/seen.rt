//! Keeps a set of texts.

ghost use Rattle.std.specs.Prelude.{◌≡◌, ◌||◌, ℕ, List, [], OnOk};
ghost use Rattle.std.specs.Str.{bytes_eq};
ghost use Rattle.site_table.specs.Texts.{has_text};

use std::alloc::{AllocError, Global};
use std::collections::BTreeSet;
use std::marker::Model;

/// A set of texts, which contracts see by the texts that it has.
#[derive(Drop)]
pub struct Seen {
    texts: BTreeSet<String>,
}

impl Model for Seen {
    ghost use Rattle.std.specs.Prelude.{ℕ, List, map, string_bytes};

    ghost Value = { List (List ℕ) };

    ghost view = { λ seen. map string_bytes seen.texts.keys };
}

impl Seen {
    /// Makes an empty set.
    pub fn new(alloc: Global) -> Seen
        ensures empty { result ≡ [] }
    {
        Seen {
            texts: BTreeSet::new(alloc),
        }
    }

    /// Returns whether the set has the text.
    pub fn has(&self, text: &str) -> bool
        ensures has_it { result ≡ has_text self.now text.now }
    {
        self.texts.contains(text)
    }

    /// Adds a text to the set.
    pub fn add(&mut self, alloc: Global, text: &str) -> Result<(), AllocError>
        ensures takes_it_up { OnOk result ((other : List ℕ)
            → has_text self.new other ≡ (has_text self.old other || bytes_eq other text.now)) }
    {
        let copy = String::from_str(alloc, text)?;
        self.texts.insert(copy)?;
        Ok(())
    }
}
