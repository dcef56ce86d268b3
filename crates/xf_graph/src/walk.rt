//! A walk along the edges from some roots: what it reaches, in an order without a forward read, or that a cycle stands.
ghost use Rattle.std.specs.Prelude.{◌≡◌, reverse, IfOk, OnOk, MatchOption};
ghost use Rattle.xf_graph.specs.Cycle.{HasCycle};
ghost use Rattle.xf_graph.specs.Pertinent.{IsPertinent};
ghost use Rattle.xf_graph.specs.Steps.{entries_before};

use super::links::copy_at;
use super::marks::Marks;
use super::vertices::VertexSet;
use std::alloc::{AllocError, Global};
use std::collections::VecDeque;

/// The mark of a vertex that was entered and not left.
const ENTERED: u64 = 1;
/// The mark of a vertex all of whose readers were left before it.
const LEFT: u64 = 2;

/// One step of a walk: a vertex is entered, or left.
#[derive(Clone, Copy)]
pub struct Step {
    vertex: u32,
    leaves: bool,
}

/// Puts an entry of each vertex before the steps.
fn enter_all(steps: &mut VecDeque<Step>, vertices: &[u32]) -> Result<(), AllocError>
    ensures { OnOk result (steps.new.items ≡ entries_before vertices.now steps.old.items) }
{
    for vertex in vertices {
        steps.push_front(Step {
            vertex: *vertex,
            leaves: false,
        })?;
    }
    Ok(())
}

/// The vertices that the roots reach, each before those that read from it, or none where they reach a cycle. The marks
/// of the vertices below `bound` stand in a table.
pub fn walk(
    alloc: Global,
    readers: &[VertexSet],
    roots: &[u32],
    bound: usize,
) -> Result<Option<Vec<u32>>, AllocError>
    ensures { IfOk result (λ found. MatchOption found
        (HasCycle readers.now)
        (λ vertices. IsPertinent readers.now roots.now vertices.items)) }
{
    let mut marks = Marks::new(alloc, bound)?;
    let mut left = Vec::new(alloc);
    let mut buffer = Vec::new(alloc);
    let mut steps = VecDeque::new(alloc);
    enter_all(&mut steps, roots)?;
    while let Some(step) = steps.pop_front() {
        let vertex = step.vertex;
        if step.leaves {
            marks.set(vertex, LEFT)?;
            left.push(vertex)?;
            continue;
        }
        let mark = marks.get(vertex);
        if mark == LEFT {
            continue;
        }
        if mark == ENTERED {
            return Ok(None);
        }
        marks.set(vertex, ENTERED)?;
        steps.push_front(Step {
            vertex,
            leaves: true,
        })?;
        copy_at(readers, vertex, &mut buffer)?;
        enter_all(&mut steps, &buffer)?;
    }
    left.reverse();
    Ok(Some(left))
}
