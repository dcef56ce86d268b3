//! Lists of nodes in which each is found at once.

ghost use Rattle.std.specs.Prelude.{◌≡◌, [], map, IfOk};
ghost use Rattle.std.specs.Bool.{OnFalse, OnTrue};
ghost use Rattle.xf_def_forest.specs.Visit.{has};

use indexmap::IndexSet;
use std::alloc::{AllocError, Global};
use std::marker::Model;
use xf_def_forest::{NodeId, NodeList};

/// So many nodes are passed one by one sooner than a number is hashed.
const FEW: usize = 8;

/// Nodes, which contracts see as the list of their numbers. To look for one costs no more for a long list than for a short one.
#[derive(Drop)]
pub struct NodeSet {
    nodes: NodeList,
    numbers: IndexSet<u128>,
}

impl Model for NodeSet {
    ghost use Rattle.std.specs.Prelude.{ℕ, List};
    ghost use Rattle.xf_binds.specs.NodeSet.{IsIndexed};

    ghost Value = { List ℕ };

    ghost view = { λ s. s.nodes };

    ghost invariant = { λ s. IsIndexed s.nodes s.numbers };
}

impl NodeSet {
    pub fn new(alloc: Global) -> Self
        ensures { result ≡ [] }
    {
        NodeSet {
            nodes: NodeList::new(alloc),
            numbers: IndexSet::new(alloc),
        }
    }

    /// The nodes of a list.
    pub fn of(alloc: Global, nodes: NodeList) -> Result<Self, AllocError>
        ensures { IfOk result (λ set. set ≡ nodes) }
    {
        let mut numbers = IndexSet::new(alloc);
        for node in nodes.as_slice() {
            numbers.insert(node.number)?;
        }
        Ok(NodeSet { nodes, numbers })
    }

    /// Whether both hold the same nodes in the same order.
    pub(crate) fn is_same(&self, other: &NodeSet) -> bool
        ensures same { OnTrue result (other.now ≡ self.now) }
        ensures differs { OnFalse result (other.now ≡ self.now → ⊥) }
    {
        are_same(self.nodes.as_slice(), other.nodes.as_slice())
    }

    pub fn has(&self, node: NodeId) -> bool
        ensures { result ≡ has node.number self.now }
    {
        if self.nodes.len() <= FEW {
            return self.nodes.has(node);
        }
        self.numbers.contains(&node.number)
    }
}

fn are_same(some: &[NodeId], others: &[NodeId]) -> bool
    ensures same { OnTrue result (map (λ n. n.number) others.now ≡ map (λ n. n.number) some.now) }
    ensures differs { OnFalse result (map (λ n. n.number) others.now ≡ map (λ n. n.number) some.now → ⊥) }
{
    if some.len() != others.len() {
        return false;
    }
    for (at, node) in some.iter().enumerate() {
        if others[at].number != node.number {
            return false;
        }
    }
    true
}
