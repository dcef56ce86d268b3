//! Nodes of the shape in document order.

ghost use Rattle.std.specs.Prelude.{◌≡◌, ◌++◌, ◌≤◌, true, Some, None, map, drop, length, if◌then◌else◌, IfOk, OnOk};
ghost use Rattle.std.specs.List.{list_all};
ghost use Rattle.xf_def_forest.specs.Forest.{IsLive};
ghost use Rattle.xf_def_xpath.specs.Setting.{in_order};
ghost use Rattle.xf_eval.specs.Live.{AllLive};
ghost use Rattle.xf_eval_shape.specs.Spots.{AreSpots, numbers_at, shaped};
ghost use Rattle.xf_eval_shape.specs.Woven.{all_numbers, begins_with, flushed_spots, is_attribute_of, is_owner, is_shown, own_if, own_numbers, owner_numbers, past, still_owner, woven};

use crate::leaf::is_sound;
use crate::spot::Spot;
use crate::walk::owned;
use std::alloc::{AllocError, Global};
use xf_def_forest::{NodeId, NodeList};
use xf_tree::{Forest, Seen};

/// Nodes of the shape in document order, each once.
pub fn in_order(alloc: Global, forest: &Forest, spots: &[Spot]) -> Result<Vec<Spot>, AllocError>
    requires { AreSpots forest.now.forest.nodes spots.now }
    ensures value { IfOk result (λ found. numbers_at found.items ≡ in_order (shaped forest.now.forest.nodes) (numbers_at spots.now)) }
    ensures spots { IfOk result (λ found. AreSpots forest.now.forest.nodes found.items) }
{
    is_sound(forest);
    let nodes = forest.in_order(&own_nodes(alloc, spots)?)?;
    let owners = forest.in_order(&owners_of(alloc, spots)?)?;
    let all = forest.in_order(&all_nodes(alloc, spots)?)?;
    weave(alloc, forest, &all, nodes.as_slice(), owners.as_slice())
}

fn own_nodes(alloc: Global, spots: &[Spot]) -> Result<NodeList, AllocError>
    ensures { IfOk result (λ nodes. nodes ≡ own_numbers spots.now) }
{
    let mut nodes = NodeList::new(alloc);
    for spot in spots {
        if let Spot::Node(node) = spot {
            nodes.push(*node)?;
        }
    }
    Ok(nodes)
}

fn owners_of(alloc: Global, spots: &[Spot]) -> Result<NodeList, AllocError>
    ensures { IfOk result (λ nodes. nodes ≡ owner_numbers spots.now) }
{
    let mut nodes = NodeList::new(alloc);
    for spot in spots {
        if let Spot::TextOf(owner) = spot {
            nodes.push(*owner)?;
        }
    }
    Ok(nodes)
}

fn all_nodes(alloc: Global, spots: &[Spot]) -> Result<NodeList, AllocError>
    ensures { IfOk result (λ nodes. nodes ≡ all_numbers spots.now) }
{
    let mut nodes = NodeList::new(alloc);
    for spot in spots {
        match spot {
            Spot::Node(node) => nodes.push(*node)?,
            Spot::TextOf(owner) => nodes.push(*owner)?,
            Spot::Outside(_) => continue,
        }
    }
    Ok(nodes)
}

/// The nodes and the texts of the owners among all of both, which stand in document order: a text waits until the attributes of its
/// element are past.
fn weave(
    alloc: Global,
    forest: &Forest,
    all: &NodeList,
    nodes: &[NodeId],
    owners: &[NodeId],
) -> Result<Vec<Spot>, AllocError>
    requires all { AllLive all.now forest.now.forest.nodes }
    requires nodes { list_all (λ n. is_shown forest.now.forest.nodes n.number) nodes.now ≡ true }
    requires owners { list_all (λ n. is_owner forest.now.forest.nodes n.number) owners.now ≡ true }
    ensures value { IfOk result (λ found. numbers_at found.items ≡ woven (is_attribute_of forest.now.forest.nodes) None all.now (map (λ n. n.number) nodes.now) (map (λ n. n.number) owners.now)) }
    ensures spots { IfOk result (λ found. AreSpots forest.now.forest.nodes found.items) }
{
    let mut found = Vec::new(alloc);
    let mut waiting: Option<NodeId> = None;
    let mut node_at = 0;
    let mut owner_at = 0;
    for node in all.as_slice() {
        waiting = flush(forest, waiting, *node, &mut found)?;
        node_at = put(nodes, node_at, *node, &mut found)?;
        (waiting, owner_at) = meet(owners, owner_at, *node, waiting);
    }
    if let Some(owner) = waiting {
        found.push(Spot::TextOf(owner))?;
    }
    Ok(found)
}

/// Puts the text that waits behind the others, unless the node is an attribute of its element: then it waits on.
fn flush(
    forest: &Forest,
    waiting: Option<NodeId>,
    node: NodeId,
    found: &mut Vec<Spot>,
) -> Result<Option<NodeId>, AllocError>
    requires { IsLive node.number forest.now.forest }
    ensures items { OnOk result (found.new.items ≡ found.old.items ++ flushed_spots (is_attribute_of forest.now.forest.nodes) waiting node.number) }
    ensures waits { IfOk result (λ left. left ≡ still_owner (is_attribute_of forest.now.forest.nodes) waiting node.number) }
{
    let Some(owner) = waiting else {
        return Ok(None);
    };
    if is_attribute_of(forest, owner, node) {
        return Ok(Some(owner));
    }
    found.push(Spot::TextOf(owner))?;
    Ok(None)
}

/// Whether the node is an attribute of this element.
fn is_attribute_of(forest: &Forest, owner: NodeId, node: NodeId) -> bool
    requires { IsLive node.number forest.now.forest }
    ensures { result ≡ is_attribute_of forest.now.forest.nodes owner.number node.number }
{
    let Some(Seen::Attribute(_, _)) = forest.content(node) else {
        return false;
    };
    match forest.parent(node) {
        Some(parent) => parent.is_same(owner),
        None => false,
    }
}

/// Puts the node behind the others, where it comes next; how many have come then.
fn put(
    nodes: &[NodeId],
    at: usize,
    node: NodeId,
    found: &mut Vec<Spot>,
) -> Result<usize, AllocError>
    requires { at ≤ length nodes.now }
    ensures items { OnOk result (found.new.items ≡ found.old.items ++ own_if (begins_with node.number (map (λ n. n.number) (drop at nodes.now))) node) }
    ensures at { IfOk result (λ after. map (λ n. n.number) (drop after nodes.now) ≡ past node.number (map (λ n. n.number) (drop at nodes.now))) }
    ensures within { IfOk result (λ after. after ≤ length nodes.now) }
{
    if !comes_next(nodes, at, node) {
        return Ok(at);
    }
    found.push(Spot::Node(node))?;
    Ok(at + 1)
}

fn comes_next(nodes: &[NodeId], at: usize, node: NodeId) -> bool
    ensures { result ≡ begins_with node.number (map (λ n. n.number) (drop at nodes.now)) }
{
    match nodes.get(at) {
        Some(next) => next.is_same(node),
        None => false,
    }
}

/// The text that waits from the node on, its own where it is the owner that comes next, and how many owners have come then.
fn meet(
    owners: &[NodeId],
    at: usize,
    node: NodeId,
    waiting: Option<NodeId>,
) -> (Option<NodeId>, usize)
    requires { at ≤ length owners.now }
    ensures waits { result.0 ≡ (if begins_with node.number (map (λ n. n.number) (drop at owners.now)) then Some node else waiting) }
    ensures at { map (λ n. n.number) (drop result.1 owners.now) ≡ past node.number (map (λ n. n.number) (drop at owners.now)) }
    ensures within { result.1 ≤ length owners.now }
{
    if comes_next(owners, at, node) {
        (Some(node), at + 1)
    } else {
        (waiting, at)
    }
}
