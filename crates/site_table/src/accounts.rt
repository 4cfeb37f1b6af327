//! Defines users and groups of a site.

use crate::texts::{Ids, Name};
use name_table::Named;

/// A user (passwd(5)).
#[derive(Drop)]
pub struct User {
    pub name: Name,
    pub uid: u32,
    pub gid: u32,
    /// The gids of the further groups, in the order of the file.
    pub groups: Ids,
}

impl Named for User {
    ghost name_of = { λ user. user.name };

    fn name(&self) -> &str {
        self.name.as_str()
    }
}

/// A group (group(5)).
#[derive(Drop)]
pub struct Group {
    pub name: Name,
    pub gid: u32,
}

impl Named for Group {
    ghost name_of = { λ group. group.name };

    fn name(&self) -> &str {
        self.name.as_str()
    }
}
