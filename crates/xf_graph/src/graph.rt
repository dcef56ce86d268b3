//! The graph: which vertex reads from which.
ghost use Rattle.std.specs.Prelude.{◌≡◌, ℕ, ◌==◌, ◌||◌, ◌&&◌, ◌<◌, not, false, max, length, OnOk, OnErr, IfOk};
ghost use Rattle.xf_graph.specs.Edges.{has, has_edge, HasEdges, IsWithin};

use super::links::{copy_at, cut, extend, link};
use super::vertices::VertexSet;
use std::alloc::{AllocError, Global};
use std::marker::Model;

/// A dependency graph. Contracts see it as the list of each vertex's readers, ascending, in the order of the vertices.
///
/// An edge from one vertex to another says that the second reads from the first. A cycle is reported by the numbers of
/// its vertices, the least first: where the choice among several cycles must follow the order of a document, the caller
/// numbers the vertices in that order.
#[derive(Drop)]
pub struct Graph {
    alloc: Global,
    readers: Vec<VertexSet>,
    sources: Vec<VertexSet>,
}

impl Model for Graph {
    ghost use Rattle.std.specs.Prelude.{ℕ, List};
    ghost use Rattle.std.specs.Coded.{coded_list, coded_ℕ};
    ghost use Rattle.xf_graph.specs.Edges.{IsMirrored};

    ghost Value = { List (List ℕ) };

    ghost coded = { coded_list (coded_list coded_ℕ) };

    ghost view = { λ g. g.readers.items };

    ghost invariant = { λ g. IsMirrored g.readers.items g.sources.items };
}

impl Graph {
    /// A graph of that many vertices without edges.
    pub fn new(alloc: Global, size: u32) -> Result<Graph, AllocError>
        ensures { IfOk result (λ graph. HasEdges graph size (λ from to. false)) }
    {
        let mut graph = Graph {
            alloc,
            readers: Vec::new(alloc),
            sources: Vec::new(alloc),
        };
        graph.grow(size)?;
        Ok(graph)
    }

    /// How many vertices it has. Edges join these alone.
    pub fn size(&self) -> u32
        ensures count { result ≡ length self.now }
        ensures within { IsWithin self.now }
    {
        self.readers.len() as u32
    }

    pub(crate) fn allocator(&self) -> Global {
        self.alloc
    }

    /// The readers of each vertex.
    pub(crate) fn readers(&self) -> &[VertexSet]
        ensures { result.now ≡ self.now }
    {
        &self.readers
    }

    /// The vertices that each vertex reads from.
    pub(crate) fn sources(&self) -> &[VertexSet]
        ensures { (from to : ℕ) → has_edge result.now to from ≡ has_edge self.now from to }
    {
        &self.sources
    }

    /// Writes the vertices that a vertex reads from into a buffer, in place of what it held.
    pub(crate) fn copy_sources(&self, vertex: u32, buffer: &mut Vec<u32>) -> Result<(), AllocError>
        ensures { OnOk result ((source : ℕ) → has buffer.new.items source ≡ has_edge self.now source vertex) }
    {
        copy_at(&self.sources, vertex, buffer)
    }

    /// Adds vertices without edges up to that many. A size that it has already changes nothing.
    pub fn grow(&mut self, size: u32) -> Result<(), AllocError>
        ensures ok { OnOk result (HasEdges self.new (max size (length self.old)) (has_edge self.old)) }
        ensures err { OnErr result (self.new ≡ self.old) }
    {
        let count = self.sources.len();
        extend(self.alloc, &mut self.sources, size as usize)?;
        if let Err(fault) = extend(self.alloc, &mut self.readers, size as usize) {
            self.sources.truncate(count);
            return Err(fault);
        }
        Ok(())
    }

    /// Adds the edge by which `to` reads from `from`. An edge that is there already stands once.
    pub fn add_edge(&mut self, from: u32, to: u32) -> Result<(), AllocError>
        requires from { from < length self.old }
        requires to { to < length self.old }
        ensures ok { OnOk result (HasEdges self.new (length self.old)
            (λ source reader. ((from == source) && (to == reader)) || has_edge self.old source reader)) }
        ensures err { OnErr result (self.new ≡ self.old) }
    {
        link(&mut self.readers, &mut self.sources, from, to)
    }

    /// Drops the edges into the vertex: it reads from none. It takes no memory.
    pub fn cut_into(&mut self, vertex: u32)
        ensures { HasEdges self.new (length self.old)
            (λ source reader. not (vertex == reader) && has_edge self.old source reader) }
    {
        cut(&mut self.sources, &mut self.readers, vertex);
    }

    /// Drops all edges of the vertex, those into it and those out of it. It takes no memory.
    pub fn cut_vertex(&mut self, vertex: u32)
        ensures { HasEdges self.new (length self.old)
            (λ source reader. not (vertex == source) && not (vertex == reader) && has_edge self.old source reader) }
    {
        self.cut_into(vertex);
        cut(&mut self.readers, &mut self.sources, vertex);
    }
}
