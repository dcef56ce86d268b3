//! Which calculates read a node, found by the node.

ghost use Rattle.std.specs.Prelude.{◌≡◌, ◌==◌, ◌<◌, ◌^◌, ℕ, ◌&&◌, ◌||◌, length, map, option_map, IfOk, OnOk};
ghost use Rattle.xf_def_forest.specs.Visit as doc;
ghost use Rattle.xf_graph.specs.Edges.{has};
ghost use Rattle.xf_binds.specs.Held.{entries_in};
ghost use Rattle.xf_binds_rebuild.specs.Links.{asks_on, source_on};
ghost use Rattle.xf_binds_rebuild.specs.Readers.{TellsReaders, readers_at};
ghost use Rattle.xf_binds_rebuild.specs.Found.{asks_or};

use indexmap::IndexMap;
use std::alloc::{AllocError, Global};
use xf_binds::{Applied, Asks, Web};
use xf_def_forest::{NodeId, NodeList};
use xf_def_model::Property;
use xf_graph::VertexList;

/// From the number of a node to the places of the calculates that read it.
pub(crate) type Readers = IndexMap<u128, VertexList>;

/// The readers of all nodes, where calculates stand on these.
pub(crate) fn readers_of(
    alloc: Global,
    applied: &Applied,
    web: &Web,
    nodes: &NodeList,
) -> Result<Readers, AllocError>
    requires { length nodes.now < 2 ^ 32 }
    ensures { IfOk result (TellsReaders (map (source_on (entries_in applied.now) web.now) nodes.now)) }
{
    let mut readers = IndexMap::new(alloc);
    for place in 0..nodes.len() {
        match asks_at(applied, web, nodes.at(place)) {
            Some(asks) => add_all(alloc, &mut readers, asks.reads.as_slice(), place as u32)?,
            None => {}
        }
    }
    Ok(readers)
}

/// What the calculate of a node asks.
pub(crate) fn asks_at<'a>(applied: &Applied, web: &'a Web, node: NodeId) -> Option<&'a Asks>
    ensures { asks_or (option_map (λ a. a.now) result) ≡ asks_on (entries_in applied.now) web.now node.number }
{
    match applied.place(node, Property::Calculate) {
        Some(place) => web.get(place),
        None => None,
    }
}

/// Adds a calculate as a reader of these nodes.
fn add_all(
    alloc: Global,
    readers: &mut Readers,
    nodes: &[NodeId],
    place: u32,
) -> Result<(), AllocError>
    ensures { OnOk result ((n other : ℕ) → has (readers_at readers.new n) other
        ≡ ((doc.has n (map (λ i. i.number) nodes.now) && (place == other)) || has (readers_at readers.old n) other)) }
{
    for node in nodes {
        add(alloc, readers, node.number, place)?;
    }
    Ok(())
}

/// Adds a calculate as a reader of a node.
fn add(alloc: Global, readers: &mut Readers, number: u128, place: u32) -> Result<(), AllocError>
    ensures { OnOk result ((n other : ℕ) → has (readers_at readers.new n) other
        ≡ (((number == n) && (place == other)) || has (readers_at readers.old n) other)) }
{
    match readers.get_mut(&number) {
        Some(list) => list.push(place),
        None => {
            let mut list = VertexList::new(alloc);
            list.push(place)?;
            readers.insert(number, list)?;
            Ok(())
        }
    }
}
