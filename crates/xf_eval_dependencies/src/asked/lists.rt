//! The lists of attributes and children that nodes have or stand in, and the nodes that are read for them.

ghost use Rattle.std.specs.Prelude.{◌≡◌, ◌∷◌, [], ◌++◌, true, filter, OnOk};
ghost use Rattle.xf_def_forest.specs.Axis.{axis_of};
ghost use Rattle.xf_def_forest.specs.Forest.{IsLive};
ghost use Rattle.xf_def_forest.specs.Visit.{parent_of, visits};
ghost use Rattle.xf_def_xpath.specs.Asked.{as_list, list_around, lists_below, read_for};
ghost use Rattle.xf_def_xpath.specs.AskedSteps.{kind_read, lists_of, read_if};
ghost use Rattle.xf_eval_shape.specs.Spots.{is_spot, number_at, shaped};
ghost use Rattle.xf_eval_dependencies.specs.Asked.Lists.{has_list_of, reader_at};
ghost use Rattle.xf_eval_dependencies.specs.Asked.Tells.{is_list};

use std::alloc::AllocError;
use xf_def_forest::{NodeId, NodeList};
use xf_eval_shape::{Spot, has_list, is_sound, is_text};
use xf_name::Axis;
use xf_tree::Forest;

/// Puts the list in which a node stands behind the others.
pub fn push_around(forest: &Forest, spot: Spot, looks: &mut NodeList) -> Result<(), AllocError>
    requires { is_spot forest.now.forest.nodes spot ≡ true }
    ensures { OnOk result (looks.new ≡ looks.old ++ list_around (shaped forest.now.forest.nodes) (number_at spot)) }
{
    is_sound(forest);
    match spot {
        Spot::Outside(_) => Ok(()),
        Spot::TextOf(owner) => looks.push(owner),
        Spot::Node(node) => push_parent(forest, node, looks),
    }
}

/// Puts the parent of a node behind the others, where it has one.
fn push_parent(forest: &Forest, node: NodeId, nodes: &mut NodeList) -> Result<(), AllocError>
    requires { IsLive node.number forest.now.forest }
    ensures { OnOk result (nodes.new ≡ nodes.old ++ as_list (parent_of node.number (visits forest.now.forest.nodes))) }
{
    match forest.parent(node) {
        Some(parent) => nodes.push(parent),
        None => Ok(()),
    }
}

/// Puts the node that is read for a node behind the others: a text counts as its parent.
pub(crate) fn push_read(forest: &Forest, spot: Spot, reads: &mut NodeList) -> Result<(), AllocError>
    requires { is_spot forest.now.forest.nodes spot ≡ true }
    ensures { OnOk result (reads.new ≡ reads.old ++ read_for (shaped forest.now.forest.nodes) (number_at spot)) }
{
    is_sound(forest);
    match spot {
        Spot::Outside(_) => Ok(()),
        Spot::TextOf(owner) => reads.push(owner),
        Spot::Node(node) => reads.push(reader_of(forest, node)),
    }
}

/// The node whose string value is read for that of a node: for a text its parent, where it has one.
fn reader_of(forest: &Forest, node: NodeId) -> NodeId
    requires { IsLive node.number forest.now.forest }
    ensures { result.number ≡ reader_at forest.now.forest.nodes node.number }
{
    if !is_text(forest, node) {
        return node;
    }
    match forest.parent(node) {
        Some(parent) => parent,
        None => node,
    }
}

/// Puts the list of a node and those below it behind the others.
pub(crate) fn push_below(
    forest: &Forest,
    spot: Spot,
    looks: &mut NodeList,
) -> Result<(), AllocError>
    requires { is_spot forest.now.forest.nodes spot ≡ true }
    ensures { OnOk result (looks.new ≡ looks.old ++ filter (is_list forest.now.forest.nodes) (lists_below (shaped forest.now.forest.nodes) (number_at spot))) }
{
    is_sound(forest);
    match spot {
        Spot::Node(node) => push_down(forest, node, looks),
        _ => Ok(()),
    }
}

fn push_down(forest: &Forest, node: NodeId, looks: &mut NodeList) -> Result<(), AllocError>
    requires { IsLive node.number forest.now.forest }
    ensures { OnOk result (looks.new ≡ looks.old ++ filter (has_list_of forest.now.forest.nodes) (node.number ∷ axis_of Axis.Descendant node.number (visits forest.now.forest.nodes))) }
{
    push_if(forest, node, looks)?;
    for other in forest.axis(node, Axis::Descendant) {
        push_if(forest, other, looks)?;
    }
    Ok(())
}

/// Puts the node behind the others, where it has a list.
fn push_if(forest: &Forest, node: NodeId, looks: &mut NodeList) -> Result<(), AllocError>
    ensures { OnOk result (looks.new ≡ looks.old ++ filter (has_list_of forest.now.forest.nodes) (node.number ∷ [])) }
{
    if has_list(forest, node) {
        looks.push(node)
    } else {
        Ok(())
    }
}

/// Puts the list of a node behind the others, where it has one.
fn push_own(forest: &Forest, spot: Spot, looks: &mut NodeList) -> Result<(), AllocError>
    requires { is_spot forest.now.forest.nodes spot ≡ true }
    ensures { OnOk result (looks.new ≡ looks.old ++ filter (is_list forest.now.forest.nodes) (number_at spot ∷ [])) }
{
    is_sound(forest);
    match spot {
        Spot::Node(node) => push_if(forest, node, looks),
        _ => Ok(()),
    }
}

/// Puts the lists that an axis looks at from a node behind the others.
pub(crate) fn push_looks(
    forest: &Forest,
    axis: Axis,
    spot: Spot,
    looks: &mut NodeList,
) -> Result<(), AllocError>
    requires { is_spot forest.now.forest.nodes spot ≡ true }
    ensures { OnOk result (looks.new ≡ looks.old ++ filter (is_list forest.now.forest.nodes) (lists_of axis (shaped forest.now.forest.nodes) (number_at spot))) }
{
    is_sound(forest);
    match axis {
        Axis::Child | Axis::Attribute => push_own(forest, spot, looks),
        Axis::Descendant | Axis::DescendantOrSelf => push_below(forest, spot, looks),
        Axis::FollowingSibling | Axis::PrecedingSibling => push_around(forest, spot, looks),
        _ => Ok(()),
    }
}

/// Puts what a `text()` or `node()` reads from a node on an axis behind the others, where it is written and can meet texts.
pub(crate) fn push_kind_read(
    forest: &Forest,
    tells_kinds: bool,
    axis: Axis,
    spot: Spot,
    reads: &mut NodeList,
) -> Result<(), AllocError>
    requires { is_spot forest.now.forest.nodes spot ≡ true }
    ensures { OnOk result (reads.new ≡ reads.old ++ read_if tells_kinds (kind_read axis (shaped forest.now.forest.nodes) (number_at spot))) }
{
    if !tells_kinds {
        return Ok(());
    }
    match axis {
        Axis::Child | Axis::Descendant | Axis::DescendantOrSelf => push_read(forest, spot, reads),
        Axis::FollowingSibling | Axis::PrecedingSibling => push_around(forest, spot, reads),
        _ => Ok(()),
    }
}

/// Puts the node that is read for a node behind the others, where it is asked for.
pub(crate) fn push_read_if(
    forest: &Forest,
    is_asked: bool,
    spot: Spot,
    reads: &mut NodeList,
) -> Result<(), AllocError>
    requires { is_spot forest.now.forest.nodes spot ≡ true }
    ensures { OnOk result (reads.new ≡ reads.old ++ read_if is_asked (read_for (shaped forest.now.forest.nodes) (number_at spot))) }
{
    if is_asked {
        push_read(forest, spot, reads)
    } else {
        Ok(())
    }
}
