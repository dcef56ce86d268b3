//! The graph over the calculated nodes of a model (XForms 1.1, section 4.3.2 and appendix C), and the cycle that is reported.

ghost use Rattle.std.specs.Prelude.{◌≡◌, ◌<◌, ℕ, true, ◌∷◌, ◌++◌, length, map, slice_get, IfOk, OnOk};
ghost use Rattle.xf_def_xpath.specs.Binding.{as_list};
ghost use Rattle.xf_def_forest.specs.Order.{in_order};
ghost use Rattle.xf_def_forest.specs.Visit.{visits};
ghost use Rattle.xf_graph.specs.Edges.{Adjacency, has, has_edge, HasEdges};
ghost use Rattle.xf_binds.specs.Held.{entries_in};
ghost use Rattle.xf_binds_rebuild.specs.Links.{asks_on, calculated_nodes, links, nodes_in, ring_of, source_on, sources_in};
ghost use Rattle.xf_binds_rebuild.specs.Readers.{AreVertices, edge_with, readers_at, reads_one};
ghost use Rattle.xf_binds_rebuild.specs.Found.{calculated_at};
ghost use Rattle.xf_binds_rebuild.specs.Order.{IsInOrder, IsToldOf, ring_in, turns_in};

use crate::readers::{Readers, asks_at, readers_of};
use std::alloc::{AllocError, Global};
use xf_binds::{Applied, Web};
use xf_def_forest::{NodeId, NodeList};
use xf_def_model::Property;
use xf_graph::{Graph, Order};
use xf_tree::Forest;

/// What is found of the calculates of a model, by their nodes.
#[derive(Drop)]
pub(crate) enum Sorting {
    /// All, none before one that its calculate reads.
    InTurn(NodeList),
    /// Those that depend on each other in a ring.
    Ring(NodeList),
}

/// The nodes of calculates that depend on each other in a ring, where some do; else those of all, none before one that its calculate reads.
pub(crate) fn sort_nodes(
    alloc: Global,
    forest: &Forest,
    applied: &Applied,
    web: &Web,
) -> Result<Sorting, AllocError>
    ensures ring { IfOk result (λ found. ring_in found ≡ ring_of (sources_in (visits forest.now.forest.nodes) (entries_in applied.now) web.now)) }
    ensures turns { IfOk result (λ found. IsInOrder (sources_in (visits forest.now.forest.nodes) (entries_in applied.now) web.now) (turns_in found)) }
{
    let nodes = calculated(alloc, forest, applied)?;
    let graph = graph_of(alloc, applied, web, &nodes)?;
    let told = sorted(&graph)?;
    match told {
        Order::Sorted(places) => {
            let found = nodes_at(alloc, &nodes, places.as_slice())?;
            Ok(Sorting::InTurn(found))
        }
        Order::Cycle(places) => {
            let found = nodes_at(alloc, &nodes, places.as_slice())?;
            Ok(Sorting::Ring(found))
        }
    }
}

/// An order of a graph, or the cycle that is reported.
fn sorted(graph: &Graph) -> Result<Order, AllocError>
    ensures { IfOk result (λ told. (other : Adjacency) → HasEdges graph.now (length other) (has_edge other) → IsToldOf other told) }
{
    // Its edges join no more than its vertices.
    let _ = graph.size();
    match graph.order()? {
        Order::Sorted(places) => Ok(Order::Sorted(places)),
        Order::Cycle(places) => Ok(Order::Cycle(places)),
    }
}

/// The nodes with a calculate, in document order.
fn calculated(alloc: Global, forest: &Forest, applied: &Applied) -> Result<NodeList, AllocError>
    ensures { IfOk result (λ nodes. nodes ≡ in_order (visits forest.now.forest.nodes) (calculated_nodes (entries_in applied.now))) }
{
    let mut nodes = NodeList::new(alloc);
    for at in 0..applied.len() {
        push_calculated(applied, at, &mut nodes)?;
    }
    forest.in_order(&nodes)
}

/// Adds the node of an entry that is a calculate.
fn push_calculated(applied: &Applied, at: usize, nodes: &mut NodeList) -> Result<(), AllocError>
    ensures { OnOk result (nodes.new ≡ nodes.old ++ calculated_at (slice_get (entries_in applied.now) at)) }
{
    match applied.entry(at) {
        Some(entry) => {
            if entry.property == Property::Calculate {
                nodes.push(entry.node)?;
            }
            Ok(())
        }
        None => Ok(()),
    }
}

/// The graph of the calculates of these nodes. More nodes than 32 bits count are told as want of memory: no memory holds so many.
fn graph_of(
    alloc: Global,
    applied: &Applied,
    web: &Web,
    nodes: &NodeList,
) -> Result<Graph, AllocError>
    ensures { IfOk result (λ graph. HasEdges graph (length nodes.now) (has_edge (links (map (source_on (entries_in applied.now) web.now) nodes.now)))) }
{
    let count = nodes.len();
    if count > u32::MAX as usize {
        return Err(AllocError);
    }
    let readers = readers_of(alloc, applied, web, nodes)?;
    let mut graph = Graph::new(alloc, count as u32)?;
    for place in 0..count {
        link_source(
            &mut graph,
            &readers,
            applied,
            web,
            nodes.at(place),
            place as u32,
        )?;
    }
    Ok(graph)
}

/// Adds the edges from a node to those that read it or an ancestor of it.
fn link_source(
    graph: &mut Graph,
    readers: &Readers,
    applied: &Applied,
    web: &Web,
    node: NodeId,
    place: u32,
) -> Result<(), AllocError>
    requires place { place < length graph.old }
    requires readers { AreVertices (length graph.old) readers.now }
    ensures { OnOk result (HasEdges graph.new (length graph.old)
        (edge_with graph.old place (reads_one readers.now (node.number ∷ (asks_on (entries_in applied.now) web.now node.number).above)))) }
{
    link_node(graph, readers, node, place)?;
    match asks_at(applied, web, node) {
        Some(asks) => link_above(graph, readers, asks.above.as_slice(), place),
        None => Ok(()),
    }
}

/// Adds the edges from a place to those that read one of these nodes.
fn link_above(
    graph: &mut Graph,
    readers: &Readers,
    nodes: &[NodeId],
    place: u32,
) -> Result<(), AllocError>
    requires place { place < length graph.old }
    requires readers { AreVertices (length graph.old) readers.now }
    ensures { OnOk result (HasEdges graph.new (length graph.old) (edge_with graph.old place (reads_one readers.now (map (λ n. n.number) nodes.now)))) }
{
    for node in nodes {
        link_node(graph, readers, *node, place)?;
    }
    Ok(())
}

/// Adds the edges from a place to those that read a node.
fn link_node(
    graph: &mut Graph,
    readers: &Readers,
    node: NodeId,
    place: u32,
) -> Result<(), AllocError>
    requires place { place < length graph.old }
    requires readers { AreVertices (length graph.old) readers.now }
    ensures { OnOk result (HasEdges graph.new (length graph.old) (edge_with graph.old place (has (readers_at readers.now node.number)))) }
{
    match readers.get(&node.number) {
        Some(list) => add_edges(graph, place, list.as_slice()),
        None => Ok(()),
    }
}

/// Adds the edges from a vertex to these.
fn add_edges(graph: &mut Graph, vertex: u32, others: &[u32]) -> Result<(), AllocError>
    requires vertex { vertex < length graph.old }
    requires others { (other : ℕ) → has others.now other ≡ true → other < length graph.old }
    ensures { OnOk result (HasEdges graph.new (length graph.old) (edge_with graph.old vertex (has others.now))) }
{
    for other in others {
        graph.add_edge(vertex, *other)?;
    }
    Ok(())
}

/// The nodes at these places.
fn nodes_at(alloc: Global, nodes: &NodeList, places: &[u32]) -> Result<NodeList, AllocError>
    ensures { IfOk result (λ found. found ≡ nodes_in nodes.now places.now) }
{
    let mut found = NodeList::new(alloc);
    for place in places {
        push_at(nodes, *place as usize, &mut found)?;
    }
    Ok(found)
}

/// Adds the node at a place, where there is one.
fn push_at(nodes: &NodeList, place: usize, found: &mut NodeList) -> Result<(), AllocError>
    ensures { OnOk result (found.new ≡ found.old ++ as_list (slice_get nodes.now place)) }
{
    match nodes.get(place) {
        Some(node) => found.push(node),
        None => Ok(()),
    }
}
