//! The nodes on an axis, as a list.

ghost use Rattle.std.specs.Prelude.{◌≡◌, ◌++◌, IfOk, OnOk};
ghost use Rattle.xf_def_forest.specs.Axis.{axis_of};
ghost use Rattle.xf_def_forest.specs.Forest.{IsLive};
ghost use Rattle.xf_def_forest.specs.Visit.{visits};

use std::alloc::{AllocError, Global};
use xf_def_forest::{NodeId, NodeList};
use xf_name::Axis;
use xf_tree::Forest;

/// The nodes on an axis from a node, in proximity order.
pub(crate) fn listed(
    alloc: Global,
    forest: &Forest,
    node: NodeId,
    axis: Axis,
) -> Result<NodeList, AllocError>
    requires { IsLive node.number forest.now.forest }
    ensures { IfOk result (λ nodes. nodes ≡ axis_of axis node.number (visits forest.now.forest.nodes)) }
{
    let mut nodes = NodeList::new(alloc);
    push_axis(forest, node, axis, &mut nodes)?;
    Ok(nodes)
}

fn push_axis(
    forest: &Forest,
    node: NodeId,
    axis: Axis,
    nodes: &mut NodeList,
) -> Result<(), AllocError>
    requires { IsLive node.number forest.now.forest }
    ensures { OnOk result (nodes.new ≡ nodes.old ++ axis_of axis node.number (visits forest.now.forest.nodes)) }
{
    let mut walk = forest.axis(node, axis);
    while let Some(other) = walk.next() {
        nodes.push(other)?;
    }
    Ok(())
}
