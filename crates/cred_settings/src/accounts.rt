//! Defines the types of the ids that a service runs with.
ghost use Rattle.std.specs.Prelude.{◌≡◌, ◌++◌, ◌∷◌, [], OnOk, OnErr};

use dropin_merge::ItemList;
use std::alloc::AllocError;

/// Ids of groups in order. Contracts see them as a list of numbers.
pub type Gids = ItemList<u32>;

/// The ids that a service runs with (credentials(7)).
#[derive(Drop)]
pub struct Identity {
    pub uid: u32,
    pub gid: u32,
    /// The supplementary groups.
    pub groups: Gids,
}

/// The account that User= and DynamicUser= give.
#[derive(Drop)]
pub enum Account {
    /// The dynamic uid of the site, as user and as group.
    Dynamic,
    /// The ids of a user of the site, of a number, or of the superuser.
    Fixed(Identity),
}
