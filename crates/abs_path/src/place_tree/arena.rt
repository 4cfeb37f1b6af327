//! Keeps the nodes of a tree: it finds or makes the node of a path, and keeps numbers at nodes.

ghost use Rattle.std.specs.Prelude.{◌≡◌, ◌<◌, ℕ, List, length, Option, Some, None, IfOk, IfSome};
ghost use Rattle.abs_path.specs.Paths.{Path};
ghost use Rattle.abs_path.specs.place_tree.Places.{later, IsLastLeading};
ghost use Rattle.abs_path.specs.place_tree.Arena.{child_at, number_at, node_at, IsArena, IsNumbered, IsTree, Grows, HasSameWays, HasNodes};

use crate::AbsPath;
use crate::place_tree::node::{Node, child, last};
use crate::place_tree::parts::next_part;
use std::alloc::{AllocError, Global};

// Returns the node of the path, if it has one.
pub(crate) fn node_of(nodes: &[Node], path: &AbsPath) -> Option<usize>
    requires { IsArena nodes.now }
    ensures node { result ≡ node_at nodes.now path.now }
    ensures in_range { IfSome result (λ at. at < length nodes.now) }
{
    let mut at = 0;
    let mut rest = path.text();
    while let Some((part, more)) = next_part(rest) {
        at = child(nodes, at, part)?;
        rest = more;
    }
    Some(at)
}

// Returns the greater of two numbers, or the only one, if any.
fn later(one: Option<usize>, other: Option<usize>) -> Option<usize>
    ensures { result ≡ later one other }
{
    match (one, other) {
        (Some(one), Some(other)) => Some(one.max(other)),
        (None, other) => other,
        (one, None) => one,
    }
}

// Returns the greatest number that a node on the way to the path keeps.
pub(crate) fn greatest(nodes: &[Node], path: &AbsPath) -> Option<usize>
    requires { IsArena nodes.now }
    ensures { (places : List Path) → IsNumbered nodes.now places → IsLastLeading places path.now result }
{
    let mut at = 0;
    let mut found = last(nodes, at);
    let mut rest = path.text();
    while let Some((part, more)) = next_part(rest) {
        match child(nodes, at, part) {
            None => return found,
            Some(child) => at = child,
        }
        found = later(found, last(nodes, at));
        rest = more;
    }
    found
}

// Adds a node to which the part leads from the node of this number.
fn add_child(
    alloc: Global,
    nodes: &mut Vec<Node>,
    at: usize,
    part: &str,
) -> Result<usize, AllocError>
    requires arena { IsArena nodes.old.items }
    requires in_range { at < length nodes.old.items }
    requires no_way { child_at nodes.old.items at part.now ≡ None }
    ensures grows { Grows nodes.old.items nodes.new.items }
    ensures in_range { IfOk result (λ child. child < length nodes.new.items) }
    ensures way { IfOk result (λ child. child_at nodes.new.items at part.now ≡ Some child) }
{
    let number = nodes.len();
    let name = String::from_str(alloc, part)?;
    nodes.push(Node::new(alloc))?;
    nodes[at].children.insert(name, number)?;
    Ok(number)
}

// Returns the node to which the part leads from the node of this number, and makes it if it is missing.
fn child_for(
    alloc: Global,
    nodes: &mut Vec<Node>,
    at: usize,
    part: &str,
) -> Result<usize, AllocError>
    requires arena { IsArena nodes.old.items }
    requires in_range { at < length nodes.old.items }
    ensures grows { Grows nodes.old.items nodes.new.items }
    ensures in_range { IfOk result (λ child. child < length nodes.new.items) }
    ensures way { IfOk result (λ child. child_at nodes.new.items at part.now ≡ Some child) }
{
    match child(nodes, at, part) {
        Some(child) => Ok(child),
        None => add_child(alloc, nodes, at, part),
    }
}

// Returns the node of the path, and makes it if it is missing.
pub(crate) fn node_for(
    alloc: Global,
    nodes: &mut Vec<Node>,
    path: &AbsPath,
) -> Result<usize, AllocError>
    requires { IsArena nodes.old.items }
    ensures grows { Grows nodes.old.items nodes.new.items }
    ensures in_range { IfOk result (λ at. at < length nodes.new.items) }
    ensures node { IfOk result (λ at. node_at nodes.new.items path.now ≡ Some at) }
{
    let mut at = 0;
    let mut rest = path.text();
    while let Some((part, more)) = next_part(rest) {
        at = child_for(alloc, nodes, at, part)?;
        rest = more;
    }
    Ok(at)
}

// Removes the numbers from all nodes.
fn forget(nodes: &mut [Node])
    ensures same_ways { HasSameWays nodes.old nodes.new }
    ensures same_length { length nodes.new ≡ length nodes.old }
    ensures no_numbers { (at : ℕ) → number_at nodes.new at ≡ None }
{
    for node in nodes.iter_mut() {
        node.last = None;
    }
}

// Keeps the number of each place at the node of that place.
fn number(nodes: &mut [Node], places: &[AbsPath])
    requires arena { IsArena nodes.old }
    requires no_numbers { (at : ℕ) → number_at nodes.old at ≡ None }
    requires has_nodes { HasNodes nodes.old places.now }
    ensures tree { IsTree nodes.new places.now }
{
    for (index, place) in places.iter().enumerate() {
        if let Some(at) = node_of(nodes, place) {
            nodes[at].last = Some(index);
        }
    }
}

// Numbers the places again. It takes no memory.
pub(crate) fn renumber(nodes: &mut [Node], places: &[AbsPath])
    requires arena { IsArena nodes.old }
    requires has_nodes { HasNodes nodes.old places.now }
    ensures tree { IsTree nodes.new places.now }
{
    forget(nodes);
    number(nodes, places);
}
