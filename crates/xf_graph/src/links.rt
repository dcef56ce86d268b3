//! Lists of sets, one for each vertex: the readers of each, or its sources.
ghost use Rattle.std.specs.Prelude.{◌≡◌, ℕ, ◌==◌, ◌||◌, ◌&&◌, ◌<◌, not, true, nat_lt, IfOk, max, length, take, slice_index_or, [], ◌++◌, OnOk, OnErr, MatchOption, vec_len};
ghost use Rattle.xf_graph.specs.Edges.{has, has_edge, HasEdges};

use super::vertices::VertexSet;
use std::alloc::{AllocError, Global};

/// The numbers below a size.
pub fn all_below(alloc: Global, size: u32) -> Result<Vec<u32>, AllocError>
    ensures { IfOk result (λ all. (vertex : ℕ) → has all.items vertex ≡ nat_lt vertex size) }
{
    let mut all = Vec::new(alloc);
    for vertex in 0..size {
        all.push(vertex)?;
    }
    Ok(all)
}

/// Adds the vertex to the set at a place.
pub fn add_at(sets: &mut [VertexSet], place: u32, vertex: u32) -> Result<(), AllocError>
    requires { place < length sets.old }
    ensures ok { OnOk result ((from to : ℕ)
        → has_edge sets.new from to ≡ (((place == from) && (vertex == to)) || has_edge sets.old from to)) }
    ensures err { OnErr result (sets.new ≡ sets.old) }
{
    sets[place as usize].add(vertex)
}

/// Takes the vertex out of the set at a place.
pub fn remove_at(sets: &mut [VertexSet], place: u32, vertex: u32)
    ensures { (from to : ℕ)
        → has_edge sets.new from to ≡ (not ((place == from) && (vertex == to)) && has_edge sets.old from to) }
{
    let place = place as usize;
    if place < sets.len() {
        sets[place].remove(vertex);
    }
}

/// Takes the least vertex out of the set at a place.
pub fn pop_at(sets: &mut [VertexSet], place: u32) -> Option<u32>
    ensures some { MatchOption result
        (sets.new ≡ sets.old)
        (λ vertex. (from to : ℕ)
        → has_edge sets.new from to ≡ (not ((place == from) && (vertex == to)) && has_edge sets.old from to)) }
    ensures left { MatchOption result
        (slice_index_or sets.new place [] ≡ [])
        (λ _. length (slice_index_or sets.new place []) < length (slice_index_or sets.old place [])) }
{
    let place = place as usize;
    if place < sets.len() {
        return sets[place].pop();
    }
    None
}

/// Writes the set at a place into a buffer, in place of what it held. Past the end there is nothing.
pub fn copy_at(sets: &[VertexSet], place: u32, buffer: &mut Vec<u32>) -> Result<(), AllocError>
    ensures { OnOk result (buffer.new.items ≡ slice_index_or sets.now place []) }
{
    buffer.clear();
    let place = place as usize;
    if place < sets.len() {
        sets[place].copy_to(buffer)?;
    }
    Ok(())
}

/// Whether the vertex is in the set at a place. Past the end there is nothing.
pub fn has_at(sets: &[VertexSet], place: u32, vertex: u32) -> bool
    ensures { result ≡ has_edge sets.now place vertex }
{
    let place = place as usize;
    place < sets.len() && sets[place].contains(vertex)
}

/// Adds empty sets up to a size.
pub fn extend(alloc: Global, sets: &mut Vec<VertexSet>, size: usize) -> Result<(), AllocError>
    ensures ok { OnOk result (HasEdges sets.new.items (max size (vec_len sets.old)) (has_edge sets.old.items)) }
    ensures first { OnOk result (take (vec_len sets.old) sets.new.items ≡ sets.old.items) }
    ensures err { OnErr result (sets.new.items ≡ sets.old.items) }
{
    let count = sets.len();
    while sets.len() < size {
        if sets.push(VertexSet::new(alloc)).is_err() {
            sets.truncate(count);
            return Err(AllocError);
        }
    }
    Ok(())
}

/// Empties the set at a vertex, and takes the vertex out of the sets at the other ends.
pub fn cut(sets: &mut [VertexSet], others: &mut [VertexSet], vertex: u32)
    requires { (from to : ℕ) → has_edge others.old to from ≡ has_edge sets.old from to }
    ensures sets { (from to : ℕ)
        → has_edge sets.new from to ≡ (not (vertex == from) && has_edge sets.old from to) }
    ensures others { (from to : ℕ)
        → has_edge others.new from to ≡ (not (vertex == to) && has_edge others.old from to) }
{
    while let Some(end) = pop_at(sets, vertex) {
        remove_at(others, end, vertex);
    }
}

/// Adds an edge at both ends.
pub fn link(
    readers: &mut [VertexSet],
    sources: &mut [VertexSet],
    from: u32,
    to: u32,
) -> Result<(), AllocError>
    requires from { from < length readers.old }
    requires to { to < length sources.old }
    requires turned { (source reader : ℕ) → has_edge sources.old reader source ≡ has_edge readers.old source reader }
    ensures turned { (source reader : ℕ) → has_edge sources.new reader source ≡ has_edge readers.new source reader }
    ensures ok { OnOk result ((source reader : ℕ)
        → has_edge readers.new source reader
        ≡ (((from == source) && (to == reader)) || has_edge readers.old source reader)) }
    ensures err { OnErr result (readers.new ≡ readers.old) }
{
    if readers[from as usize].contains(to) {
        return Ok(());
    }
    add_at(sources, to, from)?;
    if let Err(fault) = add_at(readers, from, to) {
        remove_at(sources, to, from);
        return Err(fault);
    }
    Ok(())
}
