//! Holds items with a fact about their list, for example that their names ascend.
//!
//! `impl Held for Row { ghost AreHeld = { AreOrdered }; }` states the fact for the type of an item. The alias `pub
//! type OrderedRows = HeldList<Row>` names the list. A function that makes such a list proves the fact, and a function that
//! borrows its items knows the fact.

ghost use Rattle.std.specs.Prelude.{◌≡◌, ◌≤◌, insert, length, OnOk, OnErr};

use std::alloc::AllocError;
use std::marker::Model;

/// Items of this type keep a fact in every `HeldList` of them.
pub trait Held: Sized {
    ghost use Rattle.std.specs.Prelude.{List};

    ghost AreHeld: { List Self → Type 0 };
}

/// Items in their order, whose fact holds. Contracts see them as a list.
#[derive(Drop)]
pub struct HeldList<T: Held> {
    items: Vec<T>,
}

impl<T: Held> Model for HeldList<T> {
    ghost use Rattle.std.specs.Prelude.{List};

    ghost Value = { List T };

    ghost view = { λ list. list.items.items };

    ghost invariant = { λ list. T.AreHeld list.items.items };
}

impl<T: Held> HeldList<T> {
    /// Makes a list of these items, whose fact holds.
    pub fn new(items: Vec<T>) -> Self
        requires { T.AreHeld items.items }
        ensures holds_them { result ≡ items.items }
    {
        HeldList { items }
    }

    /// Returns the items in their order, with the fact.
    pub fn list(&self) -> &[T]
        ensures all_in_order { result.now ≡ self.now }
        ensures as_held { T.AreHeld self.now }
    {
        &self.items
    }

    /// Returns the items without the fact.
    pub fn into_items(self) -> Vec<T>
        ensures all_in_order { result.items ≡ self }
    {
        self.items
    }
}

impl<T: Held + Drop> HeldList<T> {
    /// Inserts an item at a place where the fact still holds. If memory runs out, the items stay as they were.
    pub fn insert(&mut self, at: usize, item: T) -> Result<(), AllocError>
        requires in_range { at ≤ length self.old }
        requires goes_on { T.AreHeld (insert self.old at item) }
        ensures longer { OnOk result (self.new ≡ insert self.old at item) }
        ensures unchanged { OnErr result (self.new ≡ self.old) }
    {
        self.items.insert(at, item)?;
        Ok(())
    }
}
