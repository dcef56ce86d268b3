//! The nodes that got another text, with their ancestors.

ghost use Rattle.std.specs.Prelude.{◌≡◌, ◌∷◌, ◌<◌, ◌^◌, ◌||◌, ℕ, map, IfOk, OnOk};
ghost use Rattle.xf_def_forest.specs.Forest.{IsLive};
ghost use Rattle.xf_def_forest.specs.Shape.{shape_of};
ghost use Rattle.xf_def_forest.specs.Visit.{ancestors_of, has, visits};
ghost use Rattle.xf_eval_shape.specs.Spots.{stands};
ghost use Rattle.xf_binds.specs.Table.{kept_at};
ghost use Rattle.xf_recalc_pertinent.specs.Spread.{Hears, is_touched};

use crate::numbers::Numbers;
use std::alloc::{AllocError, Global};
use xf_binds::Table;
use xf_def_forest::{NodeId, NodeList};
use xf_eval_shape::{Spot, entered, is_sound};
use xf_tree::Forest;

/// The nodes of a model that got another text, and their ancestors over the shape of the data.
pub(crate) fn touched(
    alloc: Global,
    forest: &Forest,
    table: &Table,
    model: u32,
) -> Result<Numbers, AllocError>
    ensures { IfOk result (λ numbers. (n : ℕ) → has n numbers ≡ is_touched (shape_of forest.now.forest.nodes) (kept_at table.now model).texts n) }
{
    let mut numbers = Numbers::new(alloc);
    match table.texts(model) {
        Some(texts) => add_touched(alloc, forest, texts.as_slice(), &mut numbers)?,
        None => {}
    }
    Ok(numbers)
}

/// Adds these nodes and their ancestors.
fn add_touched(
    alloc: Global,
    forest: &Forest,
    nodes: &[NodeId],
    numbers: &mut Numbers,
) -> Result<(), AllocError>
    ensures { OnOk result ((n : ℕ) → has n numbers.new
        ≡ (is_touched (shape_of forest.now.forest.nodes) (map (λ i. i.number) nodes.now) n || has n numbers.old)) }
{
    for node in nodes {
        add_upward(alloc, forest, *node, numbers)?;
    }
    Ok(())
}

/// Adds a node and its ancestors. One that does not stand in the shape has none.
fn add_upward(
    alloc: Global,
    forest: &Forest,
    node: NodeId,
    numbers: &mut Numbers,
) -> Result<(), AllocError>
    ensures { OnOk result (Hears numbers.old numbers.new (λ n. has n (node.number ∷ ancestors_of node.number (shape_of forest.now.forest.nodes)))) }
{
    numbers.add(node.number)?;
    let above = above(alloc, forest, node)?;
    numbers.add_all(above.as_slice())
}

/// The ancestors of a node over the shape, the nearest first.
fn above(alloc: Global, forest: &Forest, node: NodeId) -> Result<NodeList, AllocError>
    ensures { IfOk result (λ nodes. nodes ≡ ancestors_of node.number (shape_of forest.now.forest.nodes)) }
{
    is_sound(forest);
    if stands(forest, node) {
        return ancestors(alloc, forest, node);
    }
    Ok(NodeList::new(alloc))
}

/// Whether a node stands in the shape.
fn stands(forest: &Forest, node: NodeId) -> bool
    ensures stands { result ≡ stands forest.now.forest.nodes node.number }
    ensures small { node.number < 2 ^ 128 }
{
    is_sound(forest);
    fits(node.number);
    if !forest.is_live(node) {
        return false;
    }
    match entered(forest, node) {
        Spot::Node(_) => true,
        _ => false,
    }
}

/// A number of the machine is less than those of texts of a shape. This tells contracts so, and does nothing.
fn fits(number: u128)
    ensures { number < 2 ^ 128 }
{
    let _ = number;
}

/// The ancestors of a node, the nearest first.
fn ancestors(alloc: Global, forest: &Forest, node: NodeId) -> Result<NodeList, AllocError>
    requires { IsLive node.number forest.now.forest }
    ensures { IfOk result (λ nodes. nodes ≡ ancestors_of node.number (visits forest.now.forest.nodes)) }
{
    is_sound(forest);
    let mut above = NodeList::new(alloc);
    let mut next = forest.parent(node);
    while let Some(ancestor) = next {
        above.push(ancestor)?;
        next = forest.parent(ancestor);
    }
    Ok(above)
}
