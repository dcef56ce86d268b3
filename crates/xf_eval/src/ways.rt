//! How a step is walked (XPath 1.0, sections 2.1 and 2.5).

ghost use Rattle.std.specs.Prelude.{◌≡◌, ◌∷◌, []};
ghost use Rattle.xf_eval.specs.Ways.{IsWay, is_child};

use xf_def_forest::{NodeId, NodeList};
use xf_def_syntax::Step;
use xf_name::Axis;
use xf_tree::Forest;

/// Whether a step begins at all nodes below too, and the axis on which it goes from there.
#[derive(Clone, Copy, Debug)]
pub(crate) struct Way {
    pub(crate) is_below: bool,
    pub(crate) axis: Axis,
}

/// How a step is walked from these nodes: `//name` from one node goes straight to what stands below it, with no list of all parents.
pub(crate) fn way_of(forest: &Forest, step: &Step, from: &NodeList) -> Way
    ensures { IsWay step.now forest.now.forest.nodes from.now result }
{
    forest.are_trees();
    let asked = step.predicates.len();
    let count = from.len();
    if step.is_below && is_child(step.axis) && asked == 0 && count == 1 {
        return Way {
            is_below: false,
            axis: Axis::Descendant,
        };
    }
    Way {
        is_below: step.is_below,
        axis: step.axis,
    }
}

/// The same from one node.
pub(crate) fn way_of_one(forest: &Forest, step: &Step, node: NodeId) -> Way
    ensures { IsWay step.now forest.now.forest.nodes (node.number ∷ []) result }
{
    forest.are_trees();
    let asked = step.predicates.len();
    if step.is_below && is_child(step.axis) && asked == 0 {
        return Way {
            is_below: false,
            axis: Axis::Descendant,
        };
    }
    Way {
        is_below: step.is_below,
        axis: step.axis,
    }
}

fn is_child(axis: Axis) -> bool
    ensures { result ≡ is_child axis }
{
    match axis {
        Axis::Child => true,
        _ => false,
    }
}
