//! What is asked of the nodes of a forest.

ghost use Rattle.std.specs.Prelude.{◌≡◌};
ghost use Rattle.xf_def_forest.specs.Forest.{IsLive, content_at};
ghost use Rattle.xf_def_forest.specs.Shape.{has_elements};
ghost use Rattle.xf_def_forest.specs.Visit.{visits};
ghost use Rattle.xf_eval_shape.specs.Spots.{is_element_in};

use xf_def_forest::NodeId;
use xf_eval_shape::is_sound;
use xf_name::Axis;
use xf_tree::{Forest, Seen};

/// Whether an element stands right below the node. Looks no further than at the first.
pub(crate) fn has_elements(forest: &Forest, node: NodeId) -> bool
    requires { IsLive node.number forest.now.forest }
    ensures { result ≡ has_elements (visits forest.now.forest.nodes) node.number }
{
    is_sound(forest);
    for child in forest.axis(node, Axis::Child) {
        if is_element(forest, child) {
            return true;
        }
    }
    false
}

/// Whether the node is an element.
fn is_element(forest: &Forest, node: NodeId) -> bool
    ensures { result ≡ is_element_in (content_at node.number forest.now.forest.nodes) }
{
    match forest.content(node) {
        Some(Seen::Element(_)) => true,
        _ => false,
    }
}
