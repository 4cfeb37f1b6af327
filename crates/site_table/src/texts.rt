//! Defines names and lists of ids, which contracts see as bytes and as numbers.

ghost use Rattle.std.specs.Prelude.{◌≡◌, IfOk};

use std::alloc::{AllocError, Global};
use std::marker::Model;
use text_forms::item_list::ItemList;

/// The name of a user or a group.
#[derive(Drop)]
pub struct Name {
    text: String,
}

impl Model for Name {
    ghost use Rattle.std.specs.Prelude.{List, ℕ, string_bytes};

    ghost Value = { List ℕ };

    ghost view = { λ name. string_bytes name.text };
}

impl Name {
    /// Returns a copy of a text.
    pub fn new(alloc: Global, text: &str) -> Result<Name, AllocError>
        ensures same_text { IfOk result (λ name. name ≡ text.now) }
    {
        Ok(Name {
            text: String::from_str(alloc, text)?,
        })
    }

    /// Returns the text.
    pub fn as_str(&self) -> &str
        ensures same_text { result.now ≡ self.now }
    {
        self.text.as_str()
    }
}

/// Ids of users or groups, in order.
pub type Ids = ItemList<u32>;
