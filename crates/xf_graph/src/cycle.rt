//! The cycle that is reported: through the least vertex on any cycle, the shortest, and the least as a list.
ghost use Rattle.std.specs.Prelude.{◌≡◌, ◌<◌, min, IfOk, OnOk, MatchOption};
ghost use Rattle.xf_graph.specs.Cycle.{HasCycle, IsChosen};
ghost use Rattle.xf_graph.specs.Marks.{mark_of};
ghost use Rattle.xf_graph.specs.Search.{MarksNew, IsOnNoCycle, IsLeastWith, IsMeasured, ClosesAt, IsTrace};

use super::graph::Graph;
use super::links::{copy_at, has_at};
use super::marks::Marks;
use super::peel::peeled;
use super::vertices::VertexSet;
use std::alloc::{AllocError, Global};

/// Gives a mark to each unmarked vertex of a list, and puts it at the end of the queue.
fn mark_new(
    vertices: &[u32],
    mark: u64,
    marks: &mut Marks,
    queue: &mut Vec<u32>,
) -> Result<(), AllocError>
    requires { 0 < mark }
    ensures { OnOk result (MarksNew vertices.now mark (mark_of marks.old) (mark_of marks.new) queue.old.items queue.new.items) }
{
    for vertex in vertices {
        if marks.get(*vertex) != 0 {
            continue;
        }
        marks.set(*vertex, mark)?;
        queue.push(*vertex)?;
    }
    Ok(())
}

/// The marks of the vertices that stand between the target and itself, and the mark of those that the target reads from
/// on a shortest cycle through it; none where there is no such cycle.
fn measure(
    alloc: Global,
    readers: &[VertexSet],
    target: u32,
) -> Result<Option<(Marks, u64)>, AllocError>
    ensures { IfOk result (λ found. MatchOption found
        (IsOnNoCycle readers.now target)
        (λ measured. IsMeasured readers.now target (mark_of measured.0) measured.1
        × ClosesAt readers.now target (mark_of measured.0) measured.1)) }
{
    let mut marks = Marks::new(alloc, 0)?;
    let mut queue = Vec::new(alloc);
    let mut buffer = Vec::new(alloc);
    marks.set(target, 1)?;
    queue.push(target)?;
    let mut at = 0;
    while at < queue.len() {
        let vertex = queue[at];
        let mark = marks.get(vertex);
        if has_at(readers, vertex, target) {
            return Ok(Some((marks, mark)));
        }
        copy_at(readers, vertex, &mut buffer)?;
        mark_new(&buffer, mark + 1, &mut marks, &mut queue)?;
        at += 1;
    }
    Ok(None)
}

/// The lesser of a vertex and the least so far.
fn lesser(least: Option<u32>, vertex: u32) -> u32
    ensures { MatchOption least (result ≡ vertex) (λ other. result ≡ min other vertex) }
{
    match least {
        Some(other) => other.min(vertex),
        None => vertex,
    }
}

/// The least vertex of a list that has the mark.
fn least_with(vertices: &[u32], marks: &Marks, mark: u64) -> Option<u32>
    ensures { IsLeastWith vertices.now (mark_of marks.now) mark result }
{
    let mut least = None;
    for vertex in vertices {
        if marks.get(*vertex) != mark {
            continue;
        }
        least = Some(lesser(least, *vertex));
    }
    least
}

/// The shortest cycle through the target that is least as a list, by the marks.
fn trace(
    alloc: Global,
    graph: &Graph,
    target: u32,
    marks: &Marks,
    limit: u64,
) -> Result<Vec<u32>, AllocError>
    requires measured { IsMeasured graph.now target (mark_of marks.now) limit }
    requires closes { ClosesAt graph.now target (mark_of marks.now) limit }
    ensures { IfOk result (λ cycle. IsTrace graph.now (mark_of marks.now) target limit cycle.items) }
{
    let mut cycle = Vec::new(alloc);
    let mut buffer = Vec::new(alloc);
    cycle.push(target)?;
    let mut reader = target;
    let mut mark = limit;
    while mark > 1 {
        graph.copy_sources(reader, &mut buffer)?;
        let next = least_with(&buffer, marks, mark).unwrap();
        cycle.push(next)?;
        reader = next;
        mark -= 1;
    }
    Ok(cycle)
}

/// The cycle that is reported of a graph that has one.
pub fn chosen_cycle(alloc: Global, graph: &Graph) -> Result<Vec<u32>, AllocError>
    requires { HasCycle graph.now }
    ensures { IfOk result (λ cycle. IsChosen graph.now cycle.items) }
{
    let peeled = peeled(alloc, graph)?;
    for target in 0..graph.size() {
        if peeled.get(target) != 0 {
            continue;
        }
        if let Some((marks, limit)) = measure(alloc, graph.readers(), target)? {
            return trace(alloc, graph, target, &marks, limit);
        }
    }
    Ok(Vec::new(alloc))
}
