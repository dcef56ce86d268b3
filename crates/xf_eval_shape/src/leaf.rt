//! Elements without element children, in place of whose texts the shape has one, and nodes as the shape has them.

ghost use Rattle.std.specs.Prelude.{◌≡◌, ◌<◌, ◌^◌, true};
ghost use Rattle.xf_def_forest.specs.Forest.{IsLive, content_at};
ghost use Rattle.xf_def_forest.specs.Shape.{has_elements};
ghost use Rattle.xf_def_forest.specs.Visit.{parent_of, visits};
ghost use Rattle.xf_eval_shape.specs.Sound.{Sound};
ghost use Rattle.xf_eval_shape.specs.Spots.{is_element_in, is_filled, is_leaf, is_spot, is_text_in, number_at, stands};
ghost use Rattle.xf_eval_shape.specs.Steps.{has_list_in};

use crate::spot::Spot;
use xf_def_forest::NodeId;
use xf_name::Axis;
use xf_tree::{Forest, Seen};

/// The nodes are those of trees, and their numbers are not those of texts. This tells contracts so, and does nothing.
pub fn is_sound(forest: &Forest)
    ensures { Sound forest.now.forest }
{
    forest.are_trees();
    fits(forest.next_number());
}

/// A number of the machine is less than those of texts. This tells contracts so, and does nothing.
fn fits(number: u128)
    ensures { number < 2 ^ 128 }
{
    let _ = number;
}

/// Whether an element stands right below the node. Looks no further than at the first.
pub(crate) fn has_elements(forest: &Forest, node: NodeId) -> bool
    requires { IsLive node.number forest.now.forest }
    ensures { result ≡ has_elements (visits forest.now.forest.nodes) node.number }
{
    is_sound(forest);
    for child in forest.axis(node, Axis::Child) {
        if is_element(forest, child) {
            return true;
        }
    }
    false
}

/// Whether the node is an element.
pub(crate) fn is_element(forest: &Forest, node: NodeId) -> bool
    ensures { result ≡ is_element_in (content_at node.number forest.now.forest.nodes) }
{
    match forest.content(node) {
        Some(Seen::Element(_)) => true,
        _ => false,
    }
}

/// Whether the node has a list of attributes and children: a root or an element.
pub fn has_list(forest: &Forest, node: NodeId) -> bool
    ensures { result ≡ has_list_in (content_at node.number forest.now.forest.nodes) }
{
    match forest.content(node) {
        Some(Seen::Element(_)) | Some(Seen::Root) => true,
        _ => false,
    }
}

/// Whether the node is an element without element children.
pub(crate) fn is_leaf(forest: &Forest, node: NodeId) -> bool
    requires { IsLive node.number forest.now.forest }
    ensures { result ≡ is_leaf forest.now.forest.nodes node.number }
{
    is_element(forest, node) && !has_elements(forest, node)
}

/// Whether the node stands in the shape: a text does where its parent has elements in it, or where it is a top.
pub(crate) fn stands(forest: &Forest, node: NodeId) -> bool
    requires { IsLive node.number forest.now.forest }
    ensures { result ≡ stands forest.now.forest.nodes node.number }
{
    is_sound(forest);
    if is_text(forest, node) {
        return is_beside(forest, node);
    }
    true
}

/// Whether the node is a text.
pub fn is_text(forest: &Forest, node: NodeId) -> bool
    ensures { result ≡ is_text_in (content_at node.number forest.now.forest.nodes) }
{
    match forest.content(node) {
        Some(Seen::Text(_)) => true,
        _ => false,
    }
}

/// Whether elements stand right below the parent of a node, where it has one.
fn is_beside(forest: &Forest, node: NodeId) -> bool
    requires { IsLive node.number forest.now.forest }
    ensures { result ≡ is_filled forest.now.forest.nodes (parent_of node.number (visits forest.now.forest.nodes)) }
{
    match forest.parent(node) {
        Some(parent) => has_elements(forest, parent),
        None => true,
    }
}

/// The node as one of the shape, or as a text that the shape does not have.
pub fn entered(forest: &Forest, node: NodeId) -> Spot
    requires { IsLive node.number forest.now.forest }
    ensures number { number_at result ≡ node.number }
    ensures spot { is_spot forest.now.forest.nodes result ≡ true }
{
    if stands(forest, node) {
        Spot::Node(node)
    } else {
        Spot::Outside(node)
    }
}
