//! The nodes of an instance.
ghost use Rattle.std.specs.Prelude.{◌≡◌, ◌++◌, IfOk, OnOk};
ghost use Rattle.std.specs.List.{flat_map};
ghost use Rattle.xf_def_forest.specs.Axis.{axis_of};
ghost use Rattle.xf_def_forest.specs.Forest.{IsLive};
ghost use Rattle.xf_def_forest.specs.Order.{in_order};
ghost use Rattle.xf_def_forest.specs.Visit.{visits};
ghost use Rattle.xf_report.specs.Lines.{nodes_at, with_attributes};

use std::alloc::{AllocError, Global};
use xf_def_forest::{NodeId, NodeList};
use xf_name::Axis;
use xf_tree::Forest;

/// The nodes of the instance with this place, in document order.
pub fn nodes_at(alloc: Global, forest: &Forest, place: u32) -> Result<NodeList, AllocError>
    ensures { IfOk result (λ nodes. nodes ≡ nodes_at forest.now.forest.nodes place) }
{
    forest.are_trees();
    match forest.root(place) {
        Some(root) => nodes_under(alloc, forest, root),
        None => Ok(NodeList::new(alloc)),
    }
}

fn nodes_under(alloc: Global, forest: &Forest, root: NodeId) -> Result<NodeList, AllocError>
    requires { IsLive root.number forest.now.forest }
    ensures { IfOk result (λ nodes. nodes ≡ in_order (visits forest.now.forest.nodes) (flat_map (with_attributes forest.now.forest.nodes) (axis_of Axis.DescendantOrSelf root.number (visits forest.now.forest.nodes)))) }
{
    let mut nodes = NodeList::new(alloc);
    let mut walk = forest.axis(root, Axis::DescendantOrSelf);
    while let Some(node) = walk.next() {
        nodes.push(node)?;
        push_attributes(forest, node, &mut nodes)?;
    }
    forest.in_order(&nodes)
}

fn push_attributes(forest: &Forest, node: NodeId, nodes: &mut NodeList) -> Result<(), AllocError>
    requires { IsLive node.number forest.now.forest }
    ensures { OnOk result (nodes.new ≡ nodes.old ++ axis_of Axis.Attribute node.number (visits forest.now.forest.nodes)) }
{
    let mut walk = forest.axis(node, Axis::Attribute);
    while let Some(attribute) = walk.next() {
        nodes.push(attribute)?;
    }
    Ok(())
}
