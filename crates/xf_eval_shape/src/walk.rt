//! What a step selects from a node of the shape (XPath 1.0, section 2.1).

ghost use Rattle.std.specs.Prelude.{◌≡◌, ◌++◌, true, false, ◌&&◌, filter, IfOk, OnOk};
ghost use Rattle.std.specs.List.{flat_map};
ghost use Rattle.xf_def_forest.specs.Axis.{axis_of};
ghost use Rattle.xf_def_forest.specs.Forest.{IsLive, content_at};
ghost use Rattle.xf_def_forest.specs.Visit.{visits};
ghost use Rattle.xf_def_forest.specs.Shape.{text_number};
ghost use Rattle.xf_def_xpath.specs.AskedSteps.{is_kind};
ghost use Rattle.xf_def_xpath.specs.Steps.{reached};
ghost use Rattle.xf_eval_shape.specs.Spots.{AreSpots, is_leaf, is_spot, number_at, numbers_at, shaped, stands};
ghost use Rattle.xf_eval_shape.specs.Steps.{are_owned, has_texts, if_so, is_other, meets_in, piece, text_if};

use crate::leaf::{has_elements, has_list, is_leaf, is_sound, stands};
use crate::order::in_order;
use crate::spot::Spot;
use std::alloc::{AllocError, Global};
use xf_def_forest::{NodeId, NodeList};
use xf_def_syntax::Test;
use xf_eval::meets;
use xf_name::Axis;
use xf_tree::Forest;

/// What the axis and the test select from a node, in the order of the axis.
pub(crate) fn reached(
    alloc: Global,
    forest: &Forest,
    spot: Spot,
    axis: Axis,
    test: &Test,
) -> Result<Vec<Spot>, AllocError>
    requires { is_spot forest.now.forest.nodes spot ≡ true }
    ensures value { IfOk result (λ found. numbers_at found.items ≡ reached axis test.now (shaped forest.now.forest.nodes) (number_at spot)) }
    ensures spots { IfOk result (λ found. AreSpots forest.now.forest.nodes found.items) }
{
    match spot {
        Spot::Outside(_) => Ok(Vec::new(alloc)),
        Spot::TextOf(owner) => from_text(alloc, forest, owner, axis, test),
        Spot::Node(node) => from_node(alloc, forest, node, axis, test),
    }
}

fn from_node(
    alloc: Global,
    forest: &Forest,
    node: NodeId,
    axis: Axis,
    test: &Test,
) -> Result<Vec<Spot>, AllocError>
    requires { is_spot forest.now.forest.nodes (Spot.Node node) ≡ true }
    ensures value { IfOk result (λ found. numbers_at found.items ≡ reached axis test.now (shaped forest.now.forest.nodes) node.number) }
    ensures spots { IfOk result (λ found. AreSpots forest.now.forest.nodes found.items) }
{
    if goes_to_texts(forest, node, axis, test) {
        return in_texts(alloc, forest, node, axis, test);
    }
    plainly(alloc, forest, node, axis, test)
}

/// Whether the step meets texts that stand in place of others.
pub(crate) fn goes_to_texts(forest: &Forest, node: NodeId, axis: Axis, test: &Test) -> bool
    requires { IsLive node.number forest.now.forest }
    ensures { result ≡ (is_kind test.now && has_texts forest.now.forest.nodes node.number axis) }
{
    is_kind(test) && has_texts(forest, node, axis)
}

/// What it selects then.
fn in_texts(
    alloc: Global,
    forest: &Forest,
    node: NodeId,
    axis: Axis,
    test: &Test,
) -> Result<Vec<Spot>, AllocError>
    requires spot { is_spot forest.now.forest.nodes (Spot.Node node) ≡ true }
    requires texts { (is_kind test.now && has_texts forest.now.forest.nodes node.number axis) ≡ true }
    ensures value { IfOk result (λ found. numbers_at found.items ≡ reached axis test.now (shaped forest.now.forest.nodes) node.number) }
    ensures spots { IfOk result (λ found. AreSpots forest.now.forest.nodes found.items) }
{
    is_sound(forest);
    match axis {
        Axis::Child => own_text(alloc, forest, node),
        Axis::Descendant => {
            let found = with_texts(alloc, forest, node, test)?;
            without(alloc, &found, node)
        }
        _ => with_texts(alloc, forest, node, test),
    }
}

/// Whether the test tells texts apart.
pub fn is_kind(test: &Test) -> bool
    ensures { result ≡ is_kind test.now }
{
    match test {
        Test::Text | Test::Node => true,
        _ => false,
    }
}

/// Whether texts stand in place of others on this axis from a node.
fn has_texts(forest: &Forest, node: NodeId, axis: Axis) -> bool
    requires { IsLive node.number forest.now.forest }
    ensures { result ≡ has_texts forest.now.forest.nodes node.number axis }
{
    match axis {
        Axis::Child => has_list(forest, node) && !has_elements(forest, node),
        Axis::Descendant | Axis::DescendantOrSelf => has_list(forest, node),
        _ => false,
    }
}

/// What is the same as in the forest.
fn plainly(
    alloc: Global,
    forest: &Forest,
    node: NodeId,
    axis: Axis,
    test: &Test,
) -> Result<Vec<Spot>, AllocError>
    requires spot { is_spot forest.now.forest.nodes (Spot.Node node) ≡ true }
    requires plain { (is_kind test.now && has_texts forest.now.forest.nodes node.number axis) ≡ false }
    ensures value { IfOk result (λ found. numbers_at found.items ≡ reached axis test.now (shaped forest.now.forest.nodes) node.number) }
    ensures spots { IfOk result (λ found. AreSpots forest.now.forest.nodes found.items) }
{
    is_sound(forest);
    let nodes = xf_eval::reached(alloc, forest, node, axis, test)?;
    owned(alloc, &nodes)
}

/// Nodes that stand in the shape.
pub(crate) fn owned(alloc: Global, nodes: &NodeList) -> Result<Vec<Spot>, AllocError>
    ensures numbers { IfOk result (λ spots. numbers_at spots.items ≡ nodes.now) }
    ensures owned { IfOk result (λ spots. are_owned spots.items ≡ true) }
{
    let mut spots = Vec::with_capacity(alloc, nodes.len())?;
    for node in nodes.as_slice() {
        spots.push(Spot::Node(*node))?;
    }
    Ok(spots)
}

/// The one text of an element without element children; nothing else without them has one.
fn own_text(alloc: Global, forest: &Forest, node: NodeId) -> Result<Vec<Spot>, AllocError>
    requires { IsLive node.number forest.now.forest }
    ensures value { IfOk result (λ found. numbers_at found.items ≡ if_so (is_leaf forest.now.forest.nodes node.number) (text_number node.number)) }
    ensures spots { IfOk result (λ found. AreSpots forest.now.forest.nodes found.items) }
{
    let mut found = Vec::new(alloc);
    if is_leaf(forest, node) {
        found.push(Spot::TextOf(node))?;
    }
    Ok(found)
}

/// All from the node down, each with the text that stands behind it.
fn with_texts(
    alloc: Global,
    forest: &Forest,
    node: NodeId,
    test: &Test,
) -> Result<Vec<Spot>, AllocError>
    requires { IsLive node.number forest.now.forest }
    ensures value { IfOk result (λ found. numbers_at found.items ≡ flat_map (piece forest.now.forest.nodes Axis.DescendantOrSelf test.now) (axis_of Axis.DescendantOrSelf node.number (visits forest.now.forest.nodes))) }
    ensures spots { IfOk result (λ found. AreSpots forest.now.forest.nodes found.items) }
{
    let mut found = Vec::new(alloc);
    for other in forest.axis(node, Axis::DescendantOrSelf) {
        push_piece(forest, other, test, &mut found)?;
    }
    Ok(found)
}

/// Puts a node of the forest and its text behind the others, where the shape has them and they meet the test.
fn push_piece(
    forest: &Forest,
    node: NodeId,
    test: &Test,
    found: &mut Vec<Spot>,
) -> Result<(), AllocError>
    requires { IsLive node.number forest.now.forest }
    ensures value { OnOk result (numbers_at found.new.items ≡ numbers_at found.old.items ++ piece forest.now.forest.nodes Axis.DescendantOrSelf test.now node.number) }
    ensures spots { OnOk result (AreSpots forest.now.forest.nodes found.old.items → AreSpots forest.now.forest.nodes found.new.items) }
{
    if stands(forest, node) && is_met(forest, node, Axis::DescendantOrSelf, test) {
        found.push(Spot::Node(node))?;
    }
    if is_leaf(forest, node) && is_kind(test) {
        found.push(Spot::TextOf(node))?;
    }
    Ok(())
}

/// Whether a node meets the test on an axis.
fn is_met(forest: &Forest, node: NodeId, axis: Axis, test: &Test) -> bool
    ensures { result ≡ meets_in axis test.now (content_at node.number forest.now.forest.nodes) }
{
    match forest.content(node) {
        Some(content) => meets(axis, test, content),
        None => false,
    }
}

/// All but this node.
fn without(alloc: Global, spots: &[Spot], node: NodeId) -> Result<Vec<Spot>, AllocError>
    ensures { IfOk result (λ left. left.items ≡ filter (is_other node.number) spots.now) }
{
    let mut left = Vec::new(alloc);
    for spot in spots {
        match spot {
            Spot::Node(other) if other.is_same(node) => continue,
            _ => left.push(*spot)?,
        }
    }
    Ok(left)
}

/// What stands on an axis from the one text of an element: the text itself, the element, and what stands above this.
fn from_text(
    alloc: Global,
    forest: &Forest,
    owner: NodeId,
    axis: Axis,
    test: &Test,
) -> Result<Vec<Spot>, AllocError>
    requires { is_spot forest.now.forest.nodes (Spot.TextOf owner) ≡ true }
    ensures value { IfOk result (λ found. numbers_at found.items ≡ reached axis test.now (shaped forest.now.forest.nodes) (text_number owner.number)) }
    ensures spots { IfOk result (λ found. AreSpots forest.now.forest.nodes found.items) }
{
    is_sound(forest);
    match axis {
        Axis::Self_ => text_alone(alloc, owner, test),
        Axis::DescendantOrSelf => text_alone(alloc, owner, test),
        Axis::Parent => plainly(alloc, forest, owner, Axis::Self_, test),
        Axis::Ancestor => plainly(alloc, forest, owner, Axis::AncestorOrSelf, test),
        Axis::AncestorOrSelf => up_from_text(alloc, forest, owner, test),
        _ => Ok(Vec::new(alloc)),
    }
}

/// The text, its element, and what stands above this, the nearest first.
fn up_from_text(
    alloc: Global,
    forest: &Forest,
    owner: NodeId,
    test: &Test,
) -> Result<Vec<Spot>, AllocError>
    requires { is_spot forest.now.forest.nodes (Spot.TextOf owner) ≡ true }
    ensures value { IfOk result (λ found. numbers_at found.items ≡ reached Axis.AncestorOrSelf test.now (shaped forest.now.forest.nodes) (text_number owner.number)) }
    ensures spots { IfOk result (λ found. AreSpots forest.now.forest.nodes found.items) }
{
    is_sound(forest);
    let mut found = text_alone(alloc, owner, test)?;
    let above = plainly(alloc, forest, owner, Axis::AncestorOrSelf, test)?;
    found.extend_from_slice(&above)?;
    let mut ordered = in_order(alloc, forest, &found)?;
    ordered.reverse();
    Ok(ordered)
}

/// The text itself, where it meets the test.
fn text_alone(alloc: Global, owner: NodeId, test: &Test) -> Result<Vec<Spot>, AllocError>
    ensures { IfOk result (λ found. found.items ≡ text_if (is_kind test.now) owner) }
{
    let mut found = Vec::new(alloc);
    if is_kind(test) {
        found.push(Spot::TextOf(owner))?;
    }
    Ok(found)
}
