//! The order of a whole graph, or the cycle that is reported; and what a change reaches.
ghost use Rattle.std.specs.Prelude.{IfOk};
ghost use Rattle.xf_graph.specs.Cycle.{IsAcyclic};
ghost use Rattle.xf_graph.specs.Pertinent.{IsPertinent};

use super::cycle::chosen_cycle;
use super::graph::Graph;
use super::links::all_below;
use super::vertices::VertexList;
use super::walk::walk;
use std::alloc::AllocError;
use xf_base::Items;

/// What `Graph::order` answers.
#[derive(Debug, Drop)]
pub enum Order {
    /// Every vertex once, none before one that it reads from.
    Sorted(VertexList),
    /// A cycle stands: each vertex reads from the next, and the last from the first.
    Cycle(VertexList),
}

impl Graph {
    ghost use Rattle.xf_graph.specs.Answer.{IsAnswer, OnSorted};

    /// An order in which every value may be computed, or the cycle to be reported: through the least vertex that lies
    /// on any cycle, the shortest, and among these the least as a list, which begins with that vertex.
    pub fn order(&self) -> Result<Order, AllocError>
        ensures answer { IfOk result (IsAnswer self.now) }
        ensures acyclic { IfOk result (λ order. OnSorted order (IsAcyclic self.now)) }
    {
        let size = self.size();
        let roots = all_below(self.allocator(), size)?;
        match walk(self.allocator(), self.readers(), &roots, size as usize)? {
            Some(vertices) => Ok(Order::Sorted(Items::from_vec(vertices))),
            None => {
                let cycle = chosen_cycle(self.allocator(), self)?;
                Ok(Order::Cycle(Items::from_vec(cycle)))
            }
        }
    }

    /// What a change of some vertices reaches: the least set that holds them and, with a vertex, those that read from
    /// it; each once, none before one that it reads from. It takes the time and the memory of what it reaches.
    pub fn pertinent(&self, changed: &[u32]) -> Result<VertexList, AllocError>
        requires { IsAcyclic self.now }
        ensures { IfOk result (IsPertinent self.now changed.now) }
    {
        match walk(self.allocator(), self.readers(), changed, 0)? {
            Some(vertices) => Ok(Items::from_vec(vertices)),
            None => Ok(Items::new(self.allocator())),
        }
    }
}
