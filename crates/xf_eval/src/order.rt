//! Document order of what a step selects from one node (XPath 1.0, section 2.4).

ghost use Rattle.std.specs.Prelude.{◌≡◌, false, IfOk};
ghost use Rattle.xf_def_forest.specs.Axis.{is_reverse};
ghost use Rattle.xf_def_forest.specs.Order.{in_order};
ghost use Rattle.xf_eval.specs.Live.{AllLive};
ghost use Rattle.xf_eval.specs.Worth.{seen};

use std::alloc::AllocError;
use xf_def_forest::NodeList;
use xf_name::Axis;
use xf_tree::Forest;

/// What was kept of the nodes on an axis, in document order: they stand so where there are no two, or where the axis goes forward.
pub(crate) fn ordered(forest: &Forest, axis: Axis, nodes: NodeList) -> Result<NodeList, AllocError>
    requires live { AllLive nodes forest.now.forest.nodes }
    requires forward { is_reverse axis ≡ false → in_order (seen forest.now.forest.nodes) nodes ≡ nodes }
    ensures value { IfOk result (λ found. found ≡ in_order (seen forest.now.forest.nodes) nodes) }
    ensures live { IfOk result (λ found. AllLive found forest.now.forest.nodes) }
{
    forest.are_trees();
    if nodes.len() < 2 {
        return Ok(nodes);
    }
    if !is_reverse(axis) {
        return Ok(nodes);
    }
    forest.put_in_order(nodes)
}

/// Whether an axis has the nearest node first where that comes last in document order.
pub(crate) fn is_reverse(axis: Axis) -> bool
    ensures { result ≡ is_reverse axis }
{
    match axis {
        Axis::Parent | Axis::Ancestor | Axis::AncestorOrSelf | Axis::PrecedingSibling => true,
        _ => false,
    }
}
