//! Nodes of a forest, and lists of them.

ghost use Rattle.std.specs.Prelude.{◌≡◌, ◌==◌, ◌<◌, ◌↔◌, [], ◌∷◌, ◌++◌, length, map, take, reverse, IsTrue, IfOk, OnOk, OnErr, slice_get, option_map, option_to_list, position, Some};
ghost use Rattle.std.specs.List.{list_any};
ghost use Rattle.std.specs.Slice.Iter.{iter_rest};

use std::alloc::{AllocError, Global};
use std::marker::Model;
use std::slice::Iter;

/// A node of a forest. Its number is given to no other, but where the forest is rolled back before it came; the place is a hint of whoever
/// keeps the forest.
#[derive(Clone, Copy, Debug)]
pub struct NodeId {
    pub number: u128,
    pub place: usize,
}

impl NodeId {
    /// Whether both are the same node.
    pub fn is_same(self, other: NodeId) -> bool
        ensures { result ≡ (self.number == other.number) }
    {
        self.number == other.number
    }
}

/// Nodes, which contracts see as the list of their numbers.
#[derive(Debug, Drop)]
pub struct NodeList {
    nodes: Vec<NodeId>,
}

impl Model for NodeList {
    ghost use Rattle.std.specs.Prelude.{ℕ, List, map};

    ghost Value = { List ℕ };

    ghost view = { λ l. map (λ n. n.number) l.nodes.items };
}

impl NodeList {
    pub fn new(alloc: Global) -> Self
        ensures { result ≡ [] }
    {
        NodeList {
            nodes: Vec::new(alloc),
        }
    }

    /// An empty list with room for so many nodes.
    pub fn with_capacity(alloc: Global, count: usize) -> Result<Self, AllocError>
        ensures { IfOk result (λ nodes. nodes ≡ []) }
    {
        Ok(NodeList {
            nodes: Vec::with_capacity(alloc, count)?,
        })
    }

    /// The nodes, the first one first.
    pub fn as_slice(&self) -> &[NodeId]
        ensures { map (λ n. n.number) result.now ≡ self.now }
    {
        &self.nodes
    }

    pub fn iter(&self) -> Iter<'_, NodeId>
        ensures { map (λ n. n.number) (iter_rest result) ≡ self.now }
    {
        self.nodes.iter()
    }

    pub fn len(&self) -> usize
        ensures { result ≡ length self.now }
    {
        self.nodes.len()
    }

    pub fn is_empty(&self) -> bool
        ensures { IsTrue result ↔ (self.now ≡ []) }
    {
        self.nodes.is_empty()
    }

    pub fn has(&self, node: NodeId) -> bool
        ensures { result ≡ list_any (λ n. n == node.number) self.now }
    {
        has_number(&self.nodes, node.number)
    }

    /// The place of the node, from 0.
    pub fn position(&self, node: NodeId) -> Option<usize>
        ensures { result ≡ position (λ n. n == node.number) self.now }
    {
        position_of(&self.nodes, node.number)
    }

    /// The node at a place that the caller knows to be there.
    pub fn at(&self, at: usize) -> NodeId
        requires { at < length self.now }
        ensures { slice_get self.now at ≡ Some result.number }
    {
        self.nodes[at]
    }

    pub fn get(&self, at: usize) -> Option<NodeId>
        ensures { option_map (λ n. n.number) result ≡ slice_get self.now at }
    {
        self.nodes.get(at).copied()
    }

    pub fn push(&mut self, node: NodeId) -> Result<(), AllocError>
        ensures ok { OnOk result (self.new ≡ self.old ++ node.number ∷ []) }
        ensures err { OnErr result (self.new ≡ self.old) }
    {
        self.nodes.push(node)?;
        Ok(())
    }

    /// Takes the last node off.
    pub fn pop(&mut self) -> Option<NodeId>
        ensures { self.old ≡ self.new ++ option_to_list (option_map (λ n. n.number) result) }
    {
        self.nodes.pop()
    }

    /// Keeps the first nodes, so many of them.
    pub fn truncate(&mut self, count: usize)
        ensures { self.new ≡ take count self.old }
    {
        self.nodes.truncate(count);
    }

    pub fn clear(&mut self)
        ensures { self.new ≡ [] }
    {
        self.nodes.clear();
    }

    pub fn reverse(&mut self)
        ensures { self.new ≡ reverse self.old }
    {
        self.nodes.reverse();
    }
}

fn has_number(nodes: &[NodeId], number: u128) -> bool
    ensures { result ≡ list_any (λ n. n.number == number) nodes.now }
{
    nodes.iter().any(|node| node.number == number)
}

fn position_of(nodes: &[NodeId], number: u128) -> Option<usize>
    ensures { result ≡ position (λ n. n.number == number) nodes.now }
{
    nodes.iter().position(|node| node.number == number)
}
