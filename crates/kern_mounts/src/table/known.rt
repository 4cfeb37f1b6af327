//! The tree over the mount points of a table's first mounts. The copies of a table share one tree.

ghost use Rattle.std.specs.Prelude.{◌≡◌, ◌≤◌, ◌++◌, ◌∷◌, [], take, IfOk, OnOk, OnErr};
ghost use Rattle.abs_path.specs.place_tree.Places.{IsLastLeading};

use abs_path::AbsPath;
use abs_path::place_tree::PlaceTree;
use std::alloc::{AllocError, Global};
use std::marker::Model;
use std::rc::Rc;

// The most places of a shared tree that is copied to add a place. So the trees of all tables are small together.
const MOST_COPIED: usize = 256;

/// Places in a tree that copies share. A contract sees the list of the places.
#[derive(Drop)]
pub(crate) struct KnownPlaces {
    // None has no places
    tree: Option<Rc<PlaceTree>>,
}

impl Model for KnownPlaces {
    ghost use Rattle.std.specs.Prelude.{List, []};
    ghost use Rattle.std.specs.Option.{option_map_or};
    ghost use Rattle.std.specs.Rc.{rc_value};
    ghost use Rattle.abs_path.specs.Paths.{Path};

    ghost Value = { List Path };

    ghost view = { λ known. option_map_or rc_value known.tree [] };
}

impl KnownPlaces {
    /// Holds the places of a tree.
    pub(crate) fn of(alloc: Global, tree: PlaceTree) -> Result<KnownPlaces, AllocError>
        ensures same { IfOk result (λ known. known ≡ tree) }
    {
        match Rc::new(alloc, tree) {
            Ok(tree) => Ok(KnownPlaces { tree: Some(tree) }),
            Err(_) => Err(AllocError),
        }
    }

    /// Returns the number of the last place that leads to the path, by whole parts. Takes no memory.
    pub(crate) fn last_leading(&self, path: &AbsPath) -> Option<usize>
        ensures last_that_leads { IsLastLeading self.now path.now result }
    {
        match &self.tree {
            Some(tree) => tree.last_leading(path),
            None => None,
        }
    }

    /// Adds the place of this number after the others. A small tree that copies share is copied first. Returns an error if a
    /// larger tree is shared or memory runs out; then the places stay.
    pub(crate) fn add(
        &mut self,
        alloc: Global,
        number: usize,
        place: &AbsPath,
    ) -> Result<(), AllocError>
        ensures appended { OnOk result (self.new ≡ self.old ++ place.now ∷ []) }
        ensures unchanged_on_error { OnErr result (self.new ≡ self.old) }
    {
        if number < MOST_COPIED {
            self.unshare(alloc)?;
        }
        self.push(place)
    }

    // Adds a place after the others, unless the tree is shared or memory runs out.
    fn push(&mut self, place: &AbsPath) -> Result<(), AllocError>
        ensures appended { OnOk result (self.new ≡ self.old ++ place.now ∷ []) }
        ensures unchanged_on_error { OnErr result (self.new ≡ self.old) }
    {
        let Some(shared) = &mut self.tree else {
            return Err(AllocError);
        };
        match Rc::get_mut(shared) {
            Some(tree) => tree.push(place),
            None => Err(AllocError),
        }
    }

    // Makes the tree this table's own, if copies share it.
    fn unshare(&mut self, alloc: Global) -> Result<(), AllocError>
        ensures same { self.new ≡ self.old }
    {
        if let Some(shared) = &self.tree {
            if Rc::strong_count(shared) > 1 {
                let own = KnownPlaces::of(alloc, shared.copy()?)?;
                self.tree = own.tree;
            }
        }
        Ok(())
    }

    /// Keeps at most this many places from the front, and none if copies share the tree. Returns how many it keeps. Takes no
    /// memory.
    pub(crate) fn keep(&mut self, most: usize) -> usize
        ensures first_stay { self.new ≡ take result self.old }
        ensures few { result ≤ most }
    {
        if let Some(shared) = &mut self.tree {
            if let Some(tree) = Rc::get_mut(shared) {
                tree.truncate(most);
                return most;
            }
        }
        self.tree = None;
        0
    }

    /// Returns the same places; the two share one tree.
    pub(crate) fn copy(&self) -> Result<KnownPlaces, AllocError>
        ensures same { IfOk result (λ known. known ≡ self.now) }
    {
        Ok(KnownPlaces {
            tree: self.tree.clone()?,
        })
    }
}
