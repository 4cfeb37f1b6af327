//! Keeps places in a tree over their parts, and finds the last place that leads to a path.
//!
//! A search takes the time of the path's parts, however many places the tree keeps. `PlaceTree::new(alloc)?` keeps no
//! place.

mod arena;
mod node;
mod parts;
mod tree;

pub use tree::PlaceTree;
