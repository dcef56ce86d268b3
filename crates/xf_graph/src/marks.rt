//! Marks on vertices: a number for each, 0 at first.
ghost use Rattle.std.specs.Prelude.{◌≡◌, ℕ, ◌==◌, if◌then◌else◌, OnOk, IfOk};

use std::alloc::{AllocError, Global};
use std::collections::HashMap;

/// The marks of the vertices below a bound stand in a table, the others in a map: a walk over a whole graph takes a
/// table, and one that reaches a few vertices takes none.
#[derive(Drop)]
pub struct Marks {
    table: Vec<u64>,
    others: HashMap<u32, u64>,
}

impl Marks {
    ghost use Rattle.xf_graph.specs.Marks.{mark_of};

    /// No marks, with a table for the vertices below `bound`.
    pub fn new(alloc: Global, bound: usize) -> Result<Marks, AllocError>
        ensures { IfOk result (λ marks. (vertex : ℕ) → mark_of marks vertex ≡ 0) }
    {
        Ok(Marks {
            table: vec![in alloc; 0; bound]?,
            others: HashMap::new(alloc),
        })
    }

    pub fn get(&self, vertex: u32) -> u64
        ensures { result ≡ mark_of self.now vertex }
    {
        let place = vertex as usize;
        if place < self.table.len() {
            return self.table[place];
        }
        self.others.get(&vertex).copied().unwrap_or(0)
    }

    pub fn set(&mut self, vertex: u32, mark: u64) -> Result<(), AllocError>
        ensures { OnOk result ((other : ℕ)
            → mark_of self.new other ≡ (if vertex == other then mark else mark_of self.old other)) }
    {
        let place = vertex as usize;
        if place < self.table.len() {
            self.table[place] = mark;
            return Ok(());
        }
        self.others.insert(vertex, mark)?;
        Ok(())
    }
}
