//! Numbers of nodes, each once, in the order in which they came.

ghost use Rattle.std.specs.Prelude.{◌≡◌, ◌==◌, ◌↔◌, [], map, slice_get, IsTrue, OnOk};
ghost use Rattle.xf_def_forest.specs.Visit.{has};
ghost use Rattle.xf_recalc_pertinent.specs.Spread.{Hears};

use indexmap::IndexSet;
use std::alloc::{AllocError, Global};
use std::marker::Model;
use xf_def_forest::NodeId;

/// Numbers of nodes, each once. To look for one costs no more for many than for few.
#[derive(Drop)]
pub(crate) struct Numbers {
    numbers: IndexSet<u128>,
}

impl Model for Numbers {
    ghost use Rattle.std.specs.Prelude.{ℕ, List};

    ghost Value = { List ℕ };

    ghost view = { λ n. n.numbers.keys };
}

impl Numbers {
    pub(crate) fn new(alloc: Global) -> Self
        ensures { result ≡ [] }
    {
        Numbers {
            numbers: IndexSet::new(alloc),
        }
    }

    pub(crate) fn is_empty(&self) -> bool
        ensures { IsTrue result ↔ (self.now ≡ []) }
    {
        self.numbers.is_empty()
    }

    pub(crate) fn has(&self, number: u128) -> bool
        ensures { result ≡ has number self.now }
    {
        self.numbers.contains(&number)
    }

    /// The number at a place, from 0.
    pub(crate) fn get(&self, at: usize) -> Option<u128>
        ensures { result ≡ slice_get self.now at }
    {
        self.numbers.get_index(at).copied()
    }

    /// Adds a number behind the others, where it is not there.
    pub(crate) fn add(&mut self, number: u128) -> Result<(), AllocError>
        ensures { OnOk result (Hears self.old self.new (λ n. number == n)) }
    {
        self.numbers.insert(number)?;
        Ok(())
    }

    /// Adds the numbers of these nodes.
    pub(crate) fn add_all(&mut self, nodes: &[NodeId]) -> Result<(), AllocError>
        ensures { OnOk result (Hears self.old self.new (λ n. has n (map (λ i. i.number) nodes.now))) }
    {
        for node in nodes {
            self.add(node.number)?;
        }
        Ok(())
    }
}
