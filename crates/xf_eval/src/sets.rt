//! Sets of nodes.

ghost use Rattle.std.specs.Prelude.{◌≡◌, [], ◌∷◌, ◌++◌, true, false, option_map, slice_get, IfOk, OnOk};
ghost use Rattle.xf_name.specs.declared.axis.Axis.TheVariants.{DescendantOrSelf};
ghost use Rattle.xf_def_syntax.specs.declared.expr.Test.TheVariants.{Node};
ghost use Rattle.std.specs.List.{flat_map};
ghost use Rattle.xf_def_forest.specs.Forest.{IsLive};
ghost use Rattle.xf_def_xpath.specs.Binding.{as_list};
ghost use Rattle.xf_def_xpath.specs.Conversions.{nodes_of};
ghost use Rattle.xf_def_xpath.specs.Steps.{reached, begun_at};
ghost use Rattle.xf_eval.specs.Live.{AllLive};
ghost use Rattle.xf_eval.specs.Worth.{seen};

use crate::node_test::sought_of;
use std::alloc::{AllocError, Global};
use xf_def_forest::{NodeId, NodeList};
use xf_def_syntax::Test;
use xf_def_xpath::Value;
use xf_name::{Axis, Word};
use xf_tree::Forest;

/// What the axis and the test select from a node, in the order of the axis (XPath 1.0, section 2.1).
pub fn reached(
    alloc: Global,
    forest: &Forest,
    node: NodeId,
    axis: Axis,
    test: &Test,
) -> Result<NodeList, AllocError>
    requires { IsLive node.number forest.now.forest }
    ensures value { IfOk result (λ found. found ≡ reached axis test.now (seen forest.now.forest.nodes) node.number) }
    ensures live { IfOk result (λ found. AllLive found forest.now.forest.nodes) }
{
    forest.are_trees();
    let mut found = NodeList::new(alloc);
    reach(&mut found, forest, node, axis, test)?;
    Ok(found)
}

/// Puts behind other nodes what the axis and the test select from a node.
pub(crate) fn reach(
    found: &mut NodeList,
    forest: &Forest,
    node: NodeId,
    axis: Axis,
    test: &Test,
) -> Result<(), AllocError>
    requires { IsLive node.number forest.now.forest }
    ensures { OnOk result (found.new ≡ found.old ++ reached axis test.now (seen forest.now.forest.nodes) node.number) }
{
    forest.are_trees();
    forest.choose(found, node, axis, sought_of(axis, test))
}

/// The node at a place, from 0, of what the axis and the test select from a node. The walk goes no further.
pub(crate) fn reached_at(
    forest: &Forest,
    node: NodeId,
    axis: Axis,
    test: &Test,
    at: usize,
) -> Option<NodeId>
    requires { IsLive node.number forest.now.forest }
    ensures { option_map (λ n. n.number) result ≡ slice_get (reached axis test.now (seen forest.now.forest.nodes) node.number) at }
{
    forest.are_trees();
    forest.chosen_at(node, axis, sought_of(axis, test), at)
}

/// Whether the axis and the test select something from a node. The walk stops at the first.
pub(crate) fn reaches_any(forest: &Forest, node: NodeId, axis: Axis, test: &Test) -> bool
    requires { IsLive node.number forest.now.forest }
    ensures { result ≡ false → reached axis test.now (seen forest.now.forest.nodes) node.number ≡ [] }
{
    reached_at(forest, node, axis, test, 0).is_some()
}

/// What the axis and the test select from each of these nodes, one after the other.
pub(crate) fn reach_all(
    alloc: Global,
    forest: &Forest,
    from: &NodeList,
    axis: Axis,
    test: &Test,
) -> Result<NodeList, AllocError>
    requires { AllLive from.now forest.now.forest.nodes }
    ensures { IfOk result (λ found. found ≡ flat_map (reached axis test.now (seen forest.now.forest.nodes)) from.now) }
{
    // Most steps reach one node from each.
    let mut found = NodeList::with_capacity(alloc, from.len())?;
    for node in from.as_slice() {
        reach(&mut found, forest, *node, axis, test)?;
    }
    Ok(found)
}

/// All nodes from these down, in document order, each once: where a step behind `//` begins (XPath 1.0, section 2.5).
fn all_below(alloc: Global, forest: &Forest, nodes: &NodeList) -> Result<NodeList, AllocError>
    requires { AllLive nodes.now forest.now.forest.nodes }
    ensures value { IfOk result (λ found. found ≡ begun_at true (seen forest.now.forest.nodes) nodes.now) }
    ensures live { IfOk result (λ found. AllLive found forest.now.forest.nodes) }
{
    let found = reach_all(alloc, forest, nodes, Axis::DescendantOrSelf, &Test::Node)?;
    forest.put_in_order(found)
}

/// All nodes from one down: they are reached in document order.
pub(crate) fn down_from(
    alloc: Global,
    forest: &Forest,
    node: NodeId,
) -> Result<NodeList, AllocError>
    requires { IsLive node.number forest.now.forest }
    ensures value { IfOk result (λ found. found ≡ begun_at true (seen forest.now.forest.nodes) (node.number ∷ [])) }
    ensures live { IfOk result (λ found. AllLive found forest.now.forest.nodes) }
{
    forest.are_trees();
    reached(alloc, forest, node, Axis::DescendantOrSelf, &Test::Node)
}

/// Where a step begins: at these nodes, behind `//` at all nodes from these down.
pub(crate) fn started(
    alloc: Global,
    forest: &Forest,
    is_below: bool,
    nodes: NodeList,
) -> Result<NodeList, AllocError>
    requires { AllLive nodes forest.now.forest.nodes }
    ensures value { IfOk result (λ start. start ≡ begun_at is_below (seen forest.now.forest.nodes) nodes) }
    ensures live { IfOk result (λ start. AllLive start forest.now.forest.nodes) }
{
    if !is_below {
        return Ok(nodes);
    }
    if nodes.len() == 1 {
        return down_from(alloc, forest, nodes.at(0));
    }
    all_below(alloc, forest, &nodes)
}

/// Puts nodes behind others.
pub fn append(nodes: &mut NodeList, more: &NodeList) -> Result<(), AllocError>
    ensures { OnOk result (nodes.new ≡ nodes.old ++ more.now) }
{
    for node in more.as_slice() {
        nodes.push(*node)?;
    }
    Ok(())
}

/// One node alone.
pub fn single(alloc: Global, node: NodeId) -> Result<NodeList, AllocError>
    ensures { IfOk result (λ nodes. nodes ≡ node.number ∷ []) }
{
    let mut nodes = NodeList::new(alloc);
    nodes.push(node)?;
    Ok(nodes)
}

/// The node that is given, alone, or none.
pub(crate) fn listed(alloc: Global, node: Option<NodeId>) -> Result<NodeList, AllocError>
    ensures { IfOk result (λ nodes. nodes ≡ as_list (option_map (λ n. n.number) node)) }
{
    match node {
        Some(node) => single(alloc, node),
        None => Ok(NodeList::new(alloc)),
    }
}

/// The nodes of a value: a plain value has none.
pub fn nodes_in(alloc: Global, value: Value) -> NodeList
    ensures { result ≡ nodes_of value }
{
    match value {
        Value::Nodes(nodes) => nodes,
        _ => NodeList::new(alloc),
    }
}

/// A copy of a value.
pub(crate) fn copied(alloc: Global, value: &Value) -> Result<Value, AllocError>
    ensures { IfOk result (λ copy. copy ≡ value.now) }
{
    match value {
        Value::Nodes(nodes) => {
            let mut copy = NodeList::with_capacity(alloc, nodes.len())?;
            append(&mut copy, nodes)?;
            Ok(Value::Nodes(copy))
        }
        Value::Text(text) => Ok(Value::Text(Word::from_str(alloc, text.as_str())?)),
        Value::Number(number) => Ok(Value::Number(*number)),
        Value::Truth(truth) => Ok(Value::Truth(*truth)),
    }
}
