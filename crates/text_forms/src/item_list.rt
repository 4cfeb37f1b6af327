//! Holds items in their order, which contracts see as a list.
//!
//! An alias names such a list: `pub type Notes = ItemList<Note>`. A type that a definition compares holds such a list in place
//! of a plain `Vec`. `ItemList::new(notes).list()` lends the notes again. A `HeldList` also keeps a fact about its items, which
//! their type states.

ghost use Rattle.std.specs.Prelude.{◌≡◌, ◌==◌, ◌++◌, ◌∷◌, [], IfOk, OnOk, OnErr};
ghost use Rattle.std.specs.List.{list_any};

mod held;

pub use held::{Held, HeldList};
use std::alloc::{AllocError, Global};
use std::marker::Model;

/// Items in their order.
#[derive(Drop)]
pub struct ItemList<T> {
    items: Vec<T>,
}

impl<T> Model for ItemList<T> {
    ghost use Rattle.std.specs.Prelude.{List};

    ghost Value = { List T };

    ghost view = { λ list. list.items.items };
}

impl<T> ItemList<T> {
    /// Makes a list of these items.
    pub fn new(items: Vec<T>) -> Self
        ensures holds_them { result ≡ items.items }
    {
        ItemList { items }
    }

    /// Makes a list without items, which takes its memory from this allocator.
    pub fn empty(alloc: Global) -> Self
        ensures holds_nothing { result ≡ [] }
    {
        ItemList {
            items: Vec::new(alloc),
        }
    }

    /// Returns the items in their order.
    pub fn list(&self) -> &[T]
        ensures all_in_order { result.now ≡ self.now }
    {
        &self.items
    }
}

impl<T: Drop> ItemList<T> {
    /// Adds an item after the others. If memory runs out, the items stay as they were.
    pub fn push(&mut self, item: T) -> Result<(), AllocError>
        ensures longer { OnOk result (self.new ≡ self.old ++ item ∷ []) }
        ensures unchanged { OnErr result (self.new ≡ self.old) }
    {
        self.items.push(item)?;
        Ok(())
    }

    /// Returns these items, followed by the others.
    pub fn and(self, more: ItemList<T>) -> Result<ItemList<T>, AllocError>
        ensures appended { IfOk result (λ all. all ≡ self ++ more) }
    {
        let ItemList { mut items } = self;
        let ItemList { items: others } = more;
        for item in others {
            items.push(item)?;
        }
        Ok(ItemList { items })
    }
}

impl<T: Copy> ItemList<T> {
    /// Returns a copy of the items.
    pub fn copy(&self, alloc: Global) -> Result<ItemList<T>, AllocError>
        ensures same { IfOk result (λ copy. copy ≡ self.now) }
    {
        let mut items = Vec::new(alloc);
        for item in &self.items {
            items.push(*item)?;
        }
        Ok(ItemList { items })
    }
}

impl ItemList<u32> {
    /// Returns whether the number is among the items.
    pub fn contains(&self, number: u32) -> bool
        ensures is_among { result ≡ list_any (λ own. number == own) self.now }
    {
        self.items.iter().any(|own| number == *own)
    }
}
