//! The calls of xf_graph. A graph is its size and words: `2>1` for an edge by which 1 reads from 2, `0..9` for the edges from each
//! number to the next, `into1` and `cut1` for the edges dropped into and of a vertex, `grow4` for a size.

use crate::calls::Answer;
use std::alloc::{AllocError, Global};
use xf_graph::{Graph, Order, VertexList};
use xf_name::Word;

pub fn answer(alloc: Global, call: &str, given: &[Word]) -> Answer {
    let [size, words, rest @ ..] = given else {
        return Ok(None);
    };
    let Ok(size) = size.as_str().parse::<u32>() else {
        return Ok(None);
    };
    let mut graph = Graph::new(alloc, size)?;
    let mut edges = Vec::new(alloc);
    drawn(alloc, &mut graph, &mut edges, words.as_str(), call, rest)
}

/// What a call answers of a graph to which the words are done.
fn drawn(
    alloc: Global,
    graph: &mut Graph,
    edges: &mut Vec<(u32, u32)>,
    words: &str,
    call: &str,
    given: &[Word],
) -> Answer {
    for word in words.split_whitespace() {
        if !draw(graph, edges, word)? {
            return Ok(None);
        }
    }
    match (call, given) {
        ("order", [how]) => ordered(alloc, graph, edges, how.as_str()),
        ("pertinent", [changed, how]) => {
            reached(alloc, graph, edges, changed.as_str(), how.as_str())
        }
        _ => Ok(None),
    }
}

/// The vertices in order, or a cycle.
fn ordered(alloc: Global, graph: &Graph, edges: &[(u32, u32)], how: &str) -> Answer {
    match graph.order()? {
        Order::Sorted(list) => spelled(alloc, "sorted", how, list.as_slice(), edges),
        Order::Cycle(list) => spelled(alloc, "cycle", how, list.as_slice(), &[]),
    }
}

/// The vertices that a change of some reaches, where no cycle stands.
fn reached(alloc: Global, graph: &Graph, edges: &[(u32, u32)], changed: &str, how: &str) -> Answer {
    let changed = numbers_of(alloc, changed)?;
    match pertinent(graph, &changed)? {
        Some(list) => spelled(alloc, "reached", how, list.as_slice(), edges),
        None => Ok(None),
    }
}

fn pertinent(graph: &Graph, changed: &[u32]) -> Result<Option<VertexList>, AllocError> {
    match graph.order()? {
        Order::Sorted(_) => Ok(Some(graph.pertinent(changed)?)),
        Order::Cycle(_) => Ok(None),
    }
}

/// Does to a graph what a word says, and answers whether it says something.
fn draw(graph: &mut Graph, edges: &mut Vec<(u32, u32)>, word: &str) -> Result<bool, AllocError> {
    if let Some(vertex) = number_after(word, "into") {
        graph.cut_into(vertex);
        return Ok(true);
    }
    if let Some(vertex) = number_after(word, "cut") {
        graph.cut_vertex(vertex);
        return Ok(true);
    }
    if let Some(size) = number_after(word, "grow") {
        graph.grow(size)?;
        return Ok(true);
    }
    if let Some((from, to)) = pair_at(word, "..") {
        for vertex in from..to {
            join(graph, edges, vertex, vertex + 1)?;
        }
        return Ok(true);
    }
    match pair_at(word, ">") {
        Some((from, to)) => join(graph, edges, from, to),
        None => Ok(false),
    }
}

/// Adds an edge between vertices that the graph has, and answers whether it has them.
fn join(
    graph: &mut Graph,
    edges: &mut Vec<(u32, u32)>,
    from: u32,
    to: u32,
) -> Result<bool, AllocError> {
    let size = graph.size();
    if size <= from || size <= to {
        return Ok(false);
    }
    graph.add_edge(from, to)?;
    edges.push((from, to))?;
    Ok(true)
}

fn number_after(word: &str, front: &str) -> Option<u32> {
    word.strip_prefix(front)?.parse::<u32>().ok()
}

fn pair_at(word: &str, between: &str) -> Option<(u32, u32)> {
    let (left, right) = word.split_once(between)?;
    Some((left.parse::<u32>().ok()?, right.parse::<u32>().ok()?))
}

fn numbers_of(alloc: Global, words: &str) -> Result<Vec<u32>, AllocError> {
    let mut numbers = Vec::new(alloc);
    push_numbers(&mut numbers, words)?;
    Ok(numbers)
}

fn push_numbers(numbers: &mut Vec<u32>, words: &str) -> Result<(), AllocError> {
    for word in words.split_whitespace() {
        if let Ok(number) = word.parse::<u32>() {
            numbers.push(number)?;
        }
    }
    Ok(())
}

/// Vertices as a `list` in their order; as a `count`; or as a `set`, ascending, behind `forward` where each stands after those that
/// it reads from, and `backward` otherwise.
fn spelled(alloc: Global, kind: &str, how: &str, list: &[u32], edges: &[(u32, u32)]) -> Answer {
    match how {
        "list" => listed(alloc, kind, "", list),
        "set" => {
            let way = if is_forward(list, edges) {
                " forward"
            } else {
                " backward"
            };
            let mut vertices = list.to_vec(alloc)?;
            vertices.sort()?;
            listed(alloc, kind, way, &vertices)
        }
        "count" => {
            let count = list.len();
            Ok(Some(format!(in alloc; "{kind} {count}")?))
        }
        _ => Ok(None),
    }
}

fn listed(alloc: Global, kind: &str, way: &str, vertices: &[u32]) -> Answer {
    let mut out = String::from_str(alloc, kind)?;
    push_vertices(alloc, &mut out, way, vertices)?;
    Ok(Some(out))
}

fn push_vertices(
    alloc: Global,
    out: &mut String,
    way: &str,
    vertices: &[u32],
) -> Result<(), AllocError> {
    out.push_str(way)?;
    for vertex in vertices {
        out.push_str(" ")?;
        out.push_str(vertex.to_string(alloc)?.as_str())?;
    }
    Ok(())
}

/// Whether no vertex of the list stands before one that it reads from.
fn is_forward(list: &[u32], edges: &[(u32, u32)]) -> bool {
    edges.iter().all(|(from, to)| {
        match (
            list.iter().position(|vertex| vertex == from),
            list.iter().position(|vertex| vertex == to),
        ) {
            (Some(source), Some(reader)) => source < reader,
            _ => true,
        }
    })
}
