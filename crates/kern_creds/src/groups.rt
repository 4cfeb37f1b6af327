//! Supplementary groups, setgroups(2): a list of gids in the order in which the process set them.
//!
//! Processes share a list that they inherit from one parent, until one of them sets other groups.

ghost use Rattle.std.specs.Prelude.{◌≡◌, [], IfOk};

use std::alloc::{AllocError, Global};
use std::marker::Model;
use std::rc::RcSlice;

/// The supplementary groups of a process.
#[derive(Drop)]
pub struct Groups {
    alloc: Global,
    // None until groups are set
    ids: Option<RcSlice<u32>>,
}

impl Model for Groups {
    ghost use Rattle.std.specs.Prelude.{ℕ, List, []};
    ghost use Rattle.std.specs.Option.{option_map_or};
    ghost use Rattle.std.specs.Rc.{rc_slice_items};

    ghost Value = { List ℕ };

    ghost view = { λ groups. option_map_or rc_slice_items groups.ids [] };
}

impl Groups {
    /// Makes an empty list.
    pub fn new(alloc: Global) -> Groups
        ensures empty { result ≡ [] }
    {
        Groups { alloc, ids: None }
    }

    // Makes a list of these ids, in memory of the same allocator.
    pub(crate) fn with(&self, ids: &[u32]) -> Result<Groups, AllocError>
        ensures { IfOk result (λ groups. groups ≡ ids.now) }
    {
        Ok(Groups {
            alloc: self.alloc,
            ids: Some(RcSlice::from_slice(self.alloc, ids)?),
        })
    }

    /// Returns the groups in order.
    pub fn ids(&self) -> &[u32]
        ensures in_order { result.now ≡ self.now }
    {
        match &self.ids {
            Some(ids) => ids.as_slice(),
            None => &[],
        }
    }

    /// Copies the list; the copy shares its memory.
    pub fn copy(&self) -> Result<Groups, AllocError>
        ensures same { IfOk result (λ groups. groups ≡ self.now) }
    {
        Ok(Groups {
            alloc: self.alloc,
            ids: self.ids.clone()?,
        })
    }
}
