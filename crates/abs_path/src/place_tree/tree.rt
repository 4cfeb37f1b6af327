//! Defines a tree of places. It adds places after the others, keeps the first of them, and finds the last place that leads to
//! a path.
//!
//! A contract sees a tree as the list of its places. The tree may keep nodes without a place.

ghost use Rattle.std.specs.Prelude.{◌≡◌, ◌++◌, ◌∷◌, [], take, IfOk, OnOk, OnErr};
ghost use Rattle.abs_path.specs.place_tree.Places.{IsLastLeading};

use crate::AbsPath;
use crate::place_tree::arena::{greatest, node_for, renumber};
use crate::place_tree::node::Node;
use std::alloc::{AllocError, Global};
use std::marker::Model;

/// Places in their order, and the tree over their parts.
#[derive(Drop)]
pub struct PlaceTree {
    places: Vec<AbsPath>,
    nodes: Vec<Node>,
}

impl Model for PlaceTree {
    ghost use Rattle.std.specs.Prelude.{List};
    ghost use Rattle.abs_path.specs.Paths.{Path};
    ghost use Rattle.abs_path.specs.place_tree.Arena.{IsTree};

    ghost Value = { List Path };

    ghost view = { λ tree. tree.places.items };

    ghost invariant = { λ tree. IsTree tree.nodes.items tree.places.items };
}

impl PlaceTree {
    /// Makes a tree without places.
    pub fn new(alloc: Global) -> Result<PlaceTree, AllocError>
        ensures no_places { IfOk result (λ tree. tree ≡ []) }
    {
        let mut nodes = Vec::new(alloc);
        nodes.push(Node::new(alloc))?;
        Ok(PlaceTree {
            places: Vec::new(alloc),
            nodes,
        })
    }

    /// Returns the number of the last place that leads to the path, by whole parts. Places are numbered from 0. It
    /// takes no memory.
    pub fn last_leading(&self, path: &AbsPath) -> Option<usize>
        ensures last_that_leads { IsLastLeading self.now path.now result }
    {
        greatest(&self.nodes, path)
    }

    /// Adds a place after the others. If memory runs out, the places stay.
    pub fn push(&mut self, place: &AbsPath) -> Result<(), AllocError>
        ensures appended { OnOk result (self.new ≡ self.old ++ place.now ∷ []) }
        ensures unchanged_on_error { OnErr result (self.new ≡ self.old) }
    {
        let alloc = *self.places.allocator();
        let copy = place.copy(alloc)?;
        let number = self.places.len();
        let at = node_for(alloc, &mut self.nodes, place)?;
        self.places.push(copy)?;
        self.nodes[at].last = Some(number);
        Ok(())
    }

    /// Keeps this many places from the front. It takes no memory.
    pub fn truncate(&mut self, len: usize)
        ensures first_stay { self.new ≡ take len self.old }
    {
        self.places.truncate(len);
        renumber(&mut self.nodes, &self.places);
    }

    /// Returns a copy of the tree.
    pub fn copy(&self) -> Result<PlaceTree, AllocError>
        ensures same { IfOk result (λ tree. tree ≡ self.now) }
    {
        let mut tree = PlaceTree::new(*self.places.allocator())?;
        for place in &self.places {
            tree.push(place)?;
        }
        Ok(tree)
    }
}
