//! Defines a node of the tree, which represents a path, and the ways from it to the paths with one more part.

ghost use Rattle.std.specs.Prelude.{◌≡◌, ◌<◌, None, ℕ, List, length};
ghost use Rattle.std.specs.BTreeMap.{get_by_text};
ghost use Rattle.abs_path.specs.place_tree.Arena.{child_at, number_at};

use std::alloc::Global;
use std::collections::BTreeMap;

/// A path in the tree.
#[derive(Drop)]
pub(crate) struct Node {
    /// The numbers of the nodes of the paths with one more part, by that part.
    pub(crate) children: BTreeMap<String, usize>,
    /// The number of the last place that is this path.
    pub(crate) last: Option<usize>,
}

impl Node {
    // Makes the node of a path that is no place and has no way on.
    pub(crate) fn new(alloc: Global) -> Node
        ensures no_way { (part : List ℕ) → get_by_text result.children part ≡ None }
        ensures no_place { result.last ≡ None }
    {
        Node {
            children: BTreeMap::new(alloc),
            last: None,
        }
    }
}

// Returns the node to which the part leads from the node of this number.
pub(crate) fn child(nodes: &[Node], at: usize, part: &str) -> Option<usize>
    requires in_range { at < length nodes.now }
    ensures way { result ≡ child_at nodes.now at part.now }
{
    nodes[at].children.get(part).copied()
}

// Returns the number of the last place that is the path of this node.
pub(crate) fn last(nodes: &[Node], at: usize) -> Option<usize>
    requires in_range { at < length nodes.now }
    ensures kept { result ≡ number_at nodes.now at }
{
    nodes[at].last
}
