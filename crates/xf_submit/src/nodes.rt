//! An element with what is below it, and what is asked of nodes.

ghost use Rattle.std.specs.Prelude.{◌≡◌, ◌++◌, ◌||◌, ◌==◌, IfOk, OnOk, filter, map, option_map};
ghost use Rattle.std.specs.List.{flat_map};
ghost use Rattle.xf_def_forest.specs.Axis.{axis_of};
ghost use Rattle.xf_def_forest.specs.Forest.{IsLive, content_at};
ghost use Rattle.xf_def_forest.specs.Order.{in_order};
ghost use Rattle.xf_def_forest.specs.Shape as shape;
ghost use Rattle.xf_def_forest.specs.Visit.{children_of, first_of, has, visits};
ghost use Rattle.xf_eval_shape.specs.Spots.{is_element_in};
ghost use Rattle.xf_submit.specs.Selecting.{with_attributes};

use std::alloc::{AllocError, Global};
use xf_def_forest::{NodeId, NodeList};
use xf_eval_context::is_live;
use xf_eval_shape::is_sound;
use xf_name::Axis;
use xf_tree::{Forest, Seen};

/// Whether a node stands in the forest and is an element.
pub(crate) fn is_element(forest: &Forest, node: NodeId) -> bool
    ensures { result ≡ is_element_in (content_at node.number forest.now.forest.nodes) }
{
    match forest.content(node) {
        Some(Seen::Element(_)) => true,
        _ => false,
    }
}

/// Whether an element stands right below a node.
pub(crate) fn has_elements(forest: &Forest, node: NodeId) -> bool
    ensures { result ≡ shape.has_elements (visits forest.now.forest.nodes) node.number }
{
    is_sound(forest);
    if !is_live(forest, node) {
        return false;
    }
    for child in forest.axis(node, Axis::Child) {
        if is_element(forest, child) {
            return true;
        }
    }
    false
}

/// The first child of a node.
pub(crate) fn first_child(forest: &Forest, node: NodeId) -> Option<NodeId>
    requires { IsLive node.number forest.now.forest }
    ensures { option_map (λ n. n.number) result ≡ first_of (children_of node.number (visits forest.now.forest.nodes)) }
{
    let mut walk = forest.axis(node, Axis::Child);
    walk.next()
}

/// A node and what is below it, in document order.
pub(crate) fn nodes_below(
    alloc: Global,
    forest: &Forest,
    node: NodeId,
) -> Result<NodeList, AllocError>
    requires { IsLive node.number forest.now.forest }
    ensures { IfOk result (λ nodes. nodes ≡ map (λ x. x.number) (filter (λ x. (x.number == node.number) || has node.number x.above) (visits forest.now.forest.nodes))) }
{
    forest.are_trees();
    listed_below(alloc, forest, node)
}

/// The nodes on the axis of descendants, each with its attributes.
fn listed_below(alloc: Global, forest: &Forest, node: NodeId) -> Result<NodeList, AllocError>
    requires { IsLive node.number forest.now.forest }
    ensures { IfOk result (λ nodes. nodes ≡ in_order (visits forest.now.forest.nodes) (flat_map (with_attributes forest.now.forest.nodes) (axis_of Axis.DescendantOrSelf node.number (visits forest.now.forest.nodes)))) }
{
    let mut nodes = NodeList::new(alloc);
    let mut walk = forest.axis(node, Axis::DescendantOrSelf);
    while let Some(other) = walk.next() {
        nodes.push(other)?;
        push_attributes(forest, other, &mut nodes)?;
    }
    forest.in_order(&nodes)
}

fn push_attributes(forest: &Forest, node: NodeId, nodes: &mut NodeList) -> Result<(), AllocError>
    requires { IsLive node.number forest.now.forest }
    ensures { OnOk result (nodes.new ≡ nodes.old ++ axis_of Axis.Attribute node.number (visits forest.now.forest.nodes)) }
{
    let mut walk = forest.axis(node, Axis::Attribute);
    while let Some(attribute) = walk.next() {
        nodes.push(attribute)?;
    }
    Ok(())
}
