//! The search for a set of items that serves, with no more.

ghost use Rattle.std.specs.Prelude.{◌≡◌, ◌≤◌, ◌∷◌, IfOk};
ghost use Rattle.tighten_command.specs.tightening.Searching.{CanBeTried, FindsItem, IsHeld, IsMost, TriesItem, TriesItems, tried_of};

use crate::tightening::items::has;
use crate::tightening::trial::Trial;
use crate::tightening::wishes::{StoredWish, Wished};
use asked_service::Bounded;
use std::alloc::{AllocError, Global};

/// A set of items that serves, the last added first, with the service of the unit with them.
#[derive(Drop)]
pub struct Held<'a> {
    /// The numbers of the items.
    pub set: Vec<u8>,
    /// The service.
    pub bounded: Bounded<'a>,
}

// The set with one more item.
fn with_item(alloc: Global, set: &[u8], item: u8) -> Result<Vec<u8>, AllocError>
    ensures { IfOk result (λ wider. wider.items ≡ item ∷ set.now) }
{
    let mut wider = Vec::new(alloc);
    wider.push(item)?;
    wider.extend_from_slice(set)?;
    Ok(wider)
}

impl<'a> Trial<'a> {
    // The set with an item that is outside it, where that serves.
    fn found_with(
        &self,
        alloc: Global,
        wishes: &[StoredWish],
        held: &Held<'a>,
        item: u8,
    ) -> Result<Option<Held<'a>>, AllocError>
        requires can_be_tried { CanBeTried self.now }
        requires holds { IsHeld (tried_of self.now (⟦<StoredWish as Wished>⟧.wished wishes.now)) held.now }
        requires from_1 { 1 ≤ item }
        requires to_17 { item ≤ 17 }
        ensures { IfOk result (FindsItem (tried_of self.now (⟦<StoredWish as Wished>⟧.wished wishes.now)) held.now item) }
    {
        if has(&held.set, item) {
            return Ok(None);
        }
        let wider = with_item(alloc, &held.set, item)?;
        match self.serves(alloc, wishes, &wider)? {
            Some(bounded) => Ok(Some(Held {
                set: wider,
                bounded,
            })),
            None => Ok(None),
        }
    }

    // Adds an item that is outside the set, where the set with it serves.
    fn try_item(
        &self,
        alloc: Global,
        wishes: &[StoredWish],
        held: Held<'a>,
        item: u8,
    ) -> Result<Held<'a>, AllocError>
        requires can_be_tried { CanBeTried self.now }
        requires holds { IsHeld (tried_of self.now (⟦<StoredWish as Wished>⟧.wished wishes.now)) held }
        requires from_1 { 1 ≤ item }
        requires to_17 { item ≤ 17 }
        ensures { IfOk result (TriesItem (tried_of self.now (⟦<StoredWish as Wished>⟧.wished wishes.now)) held.entry.set.items item) }
    {
        match self.found_with(alloc, wishes, &held, item)? {
            Some(next) => Ok(next),
            None => Ok(held),
        }
    }

    // Tries the items outside the set, from the last down.
    fn try_items(
        &self,
        alloc: Global,
        wishes: &[StoredWish],
        held: Held<'a>,
    ) -> Result<Held<'a>, AllocError>
        requires can_be_tried { CanBeTried self.now }
        requires holds { IsHeld (tried_of self.now (⟦<StoredWish as Wished>⟧.wished wishes.now)) held }
        ensures { IfOk result (TriesItems (tried_of self.now (⟦<StoredWish as Wished>⟧.wished wishes.now)) held.entry.set.items 17) }
    {
        let mut kept = held;
        for count in 0..17u8 {
            let next = self.try_item(alloc, wishes, kept, 17 - count)?;
            kept = next;
        }
        Ok(kept)
    }

    /// Adds items to a set that serves, until none can be added: the items outside it are tried again as long as one was added.
    pub fn most(
        &self,
        alloc: Global,
        wishes: &[StoredWish],
        held: Held<'a>,
    ) -> Result<Held<'a>, AllocError>
        requires can_be_tried { CanBeTried self.now }
        requires holds { IsHeld (tried_of self.now (⟦<StoredWish as Wished>⟧.wished wishes.now)) held }
        ensures none_can_be_added { IfOk result (IsMost (tried_of self.now (⟦<StoredWish as Wished>⟧.wished wishes.now))) }
    {
        let few = held.set.len();
        let kept = self.try_items(alloc, wishes, held)?;
        if kept.set.len() == few {
            Ok(kept)
        } else {
            self.most(alloc, wishes, kept)
        }
    }
}
