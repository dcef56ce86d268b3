//! Sets of vertices, kept in ascending order.
ghost use Rattle.std.specs.Prelude.{◌≡◌, length, ℕ, ◌==◌, ◌||◌, ◌&&◌, not, false, [], ◌∷◌, ◌++◌, OnOk, OnErr, IfOk, IfSome, MatchOption};
ghost use Rattle.xf_graph.specs.Edges.{has};

use std::alloc::{AllocError, Global};
use std::collections::BTreeSet;
use std::marker::Model;
use xf_base::Items;

/// Vertices in a row, which contracts see as the list of their numbers.
pub type VertexList = Items<u32>;

/// A set of vertices, which contracts see as their ascending list.
#[derive(Drop)]
pub struct VertexSet {
    set: BTreeSet<u32>,
}

impl Model for VertexSet {
    ghost use Rattle.std.specs.Prelude.{ℕ, List};
    ghost use Rattle.std.specs.Coded.{coded_list, coded_ℕ};

    ghost Value = { List ℕ };

    ghost coded = { coded_list coded_ℕ };

    ghost view = { λ s. s.set.keys };
}

impl VertexSet {
    pub fn new(alloc: Global) -> VertexSet
        ensures { result ≡ [] }
    {
        VertexSet {
            set: BTreeSet::new(alloc),
        }
    }

    /// Whether the vertex is in the set.
    pub fn contains(&self, vertex: u32) -> bool
        ensures { result ≡ has self.now vertex }
    {
        self.set.contains(&vertex)
    }

    pub fn len(&self) -> usize
        ensures { result ≡ length self.now }
    {
        self.set.len()
    }

    pub fn add(&mut self, vertex: u32) -> Result<(), AllocError>
        ensures ok { OnOk result ((other : ℕ) → has self.new other ≡ ((vertex == other) || has self.old other)) }
        ensures err { OnErr result (self.new ≡ self.old) }
    {
        self.set.insert(vertex)?;
        Ok(())
    }

    pub fn remove(&mut self, vertex: u32)
        ensures { (other : ℕ) → has self.new other ≡ (not (vertex == other) && has self.old other) }
    {
        self.set.remove(&vertex);
    }

    /// Takes the least vertex out.
    pub fn pop(&mut self) -> Option<u32>
        ensures first { MatchOption result ((self.old ≡ []) × (self.new ≡ [])) (λ first. self.old ≡ first ∷ self.new) }
        ensures once { IfSome result (λ first. has self.new first ≡ false) }
    {
        self.set.pop_first()
    }

    /// Writes the vertices at the end of a buffer.
    pub fn copy_to(&self, buffer: &mut Vec<u32>) -> Result<(), AllocError>
        ensures { OnOk result (buffer.new.items ≡ buffer.old.items ++ self.now) }
    {
        for vertex in self.set.iter() {
            buffer.push(*vertex)?;
        }
        Ok(())
    }
}
