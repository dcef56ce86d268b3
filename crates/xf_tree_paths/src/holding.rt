//! The instance in which a node stands.
ghost use Rattle.std.specs.Prelude.{◌≡◌};
ghost use Rattle.xf_def_forest.specs.Forest.{IsLive};
ghost use Rattle.xf_def_forest.specs.Order.{instance_of};
ghost use Rattle.xf_def_forest.specs.Visit.{top_of, visits};
ghost use Rattle.xf_tree_paths.specs.Holding.{IsAmong};

use xf_def_forest::NodeId;
use xf_tree::Forest;

/// The instance in which a node stands, where it is one of the first so many.
pub fn instance_holding(forest: &Forest, count: u32, node: NodeId) -> Option<u32>
    requires { IsLive node.number forest.now.forest }
    ensures { IsAmong count result (instance_of (top_of node.number (visits forest.now.forest.nodes)) forest.now.forest.nodes) }
{
    forest.are_trees();
    let top = forest.top(node);
    for place in 0..count {
        match forest.root(place) {
            Some(root) => {
                if root.number == top.number {
                    return Some(place);
                }
            }
            // No root stands behind the last one.
            None => return None,
        }
    }
    None
}
