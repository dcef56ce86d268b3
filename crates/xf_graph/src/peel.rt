//! Vertices that lie on no cycle, told without a search: those that read from such vertices alone, and those that such
//! vertices alone read from.
ghost use Rattle.std.specs.Prelude.{◌≡◌, ℕ, true, ◌⊎◌, ◌↔◌, IsTrue, IfOk, OnOk};
ghost use Rattle.xf_graph.specs.Edges.{has, has_edge};
ghost use Rattle.xf_graph.specs.Marks.{mark_of};
ghost use Rattle.xf_graph.specs.Search.{IsOnNoCycle, PutsSome, ArePeeled};

use super::graph::Graph;
use super::links::{all_below, copy_at};
use super::marks::Marks;
use super::vertices::VertexSet;
use std::alloc::{AllocError, Global};

/// Whether each vertex of a list has a mark.
fn all_marked(vertices: &[u32], marks: &Marks) -> bool
    ensures { IsTrue result → (vertex : ℕ) → has vertices.now vertex ≡ true → mark_of marks.now vertex ≡ 0 → ⊥ }
{
    for vertex in vertices {
        if marks.get(*vertex) == 0 {
            return false;
        }
    }
    true
}

/// Counts 1 less for each vertex of a list, and puts those that come to none at the end of the queue.
fn count_down(
    vertices: &[u32],
    counts: &mut [usize],
    queue: &mut Vec<u32>,
) -> Result<(), AllocError>
    ensures { OnOk result (PutsSome vertices.now queue.old.items queue.new.items) }
{
    for vertex in vertices {
        let place = *vertex as usize;
        if place >= counts.len() {
            continue;
        }
        let count = counts[place].saturating_sub(1);
        counts[place] = count;
        if count > 0 {
            continue;
        }
        queue.push(*vertex)?;
    }
    Ok(())
}

/// Marks the vertices behind which only marked ones stand, and so on ahead. The counts of those behind that are left
/// only say when it is worth to look.
fn peel(
    alloc: Global,
    ahead: &[VertexSet],
    behind: &[VertexSet],
    size: u32,
    peeled: &mut Marks,
) -> Result<(), AllocError>
    requires turned { (from to : ℕ) → has_edge behind.now to from ≡ has_edge ahead.now from to }
    requires old { ArePeeled ahead.now (mark_of peeled.old) }
    ensures { OnOk result (ArePeeled ahead.now (mark_of peeled.new)) }
{
    let mut counts = Vec::new(alloc);
    for set in behind {
        counts.push(set.len())?;
    }
    let mut buffer = Vec::new(alloc);
    let mut queue = all_below(alloc, size)?;
    while let Some(vertex) = queue.pop() {
        if peeled.get(vertex) != 0 {
            continue;
        }
        copy_at(behind, vertex, &mut buffer)?;
        if !all_marked(&buffer, peeled) {
            continue;
        }
        peeled.set(vertex, 1)?;
        copy_at(ahead, vertex, &mut buffer)?;
        count_down(&buffer, &mut counts, &mut queue)?;
    }
    Ok(())
}

/// Marks on vertices that lie on no cycle: what is left are the cycles and the ways between them.
pub fn peeled(alloc: Global, graph: &Graph) -> Result<Marks, AllocError>
    ensures { IfOk result (λ marks. ArePeeled graph.now (mark_of marks)) }
{
    let size = graph.size();
    let mut marks = Marks::new(alloc, size as usize)?;
    peel(alloc, graph.readers(), graph.sources(), size, &mut marks)?;
    peel(alloc, graph.sources(), graph.readers(), size, &mut marks)?;
    Ok(marks)
}
