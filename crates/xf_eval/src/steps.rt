//! Location paths: steps and predicates (XPath 1.0, sections 2 to 2.5).

ghost use Rattle.std.specs.Prelude.{◌≡◌, ◌∷◌, [], ◌++◌, IfOk, drop, length, map, option_map};
ghost use Rattle.xf_def_forest.specs.Forest.{IsLive};
ghost use Rattle.xf_def_values.specs.Bounded.{GivesBounded};
ghost use Rattle.xf_def_values.specs.Conversions.{whole};
ghost use Rattle.xf_funcs.specs.Called.{called};
ghost use Rattle.xf_def_xpath.specs.Steps.{begun, from_one, is_true_at, kept_from, kept_by_all, walked};
ghost use Rattle.xf_def_xpath.specs.Meaning.{focus_of, meaning, setting_of, walk_of};
ghost use Rattle.xf_eval.specs.Live.{AllLive, IsReady};
ghost use Rattle.xf_eval.specs.Worth.{bare_setting};
ghost use Rattle.xf_eval.specs.Taken.{taken};

use crate::around::Around;
use crate::convert::{truth_of, whole};
use crate::first::asked_at;
use crate::order::ordered;
use crate::places::{number_first, placed, reached_placed};
use crate::sets::{append, down_from, reach_all, reached, reaches_any, single, started};
use crate::ways::{way_of, way_of_one};
use std::alloc::Global;
use std::cmp::Ordering;
use xf_def_forest::{NodeId, NodeList};
use xf_def_syntax::{Expr, Start, Step};
use xf_def_xpath::{Context, EvalFault, Value};
use xf_name::Axis;
use xf_num::Decimals;
use xf_tree::Forest;

/// The nodes that a chain of steps reaches from these.
#[cycle(value)]
pub(crate) fn walked<A: Around>(
    alloc: Global,
    forest: &Forest,
    around: &A,
    steps: &[Step],
    from: NodeList,
    context: &Context,
) -> Result<NodeList, EvalFault>
    requires ready { IsReady (A.given around.now) forest.now.forest.nodes context.now }
    requires from { AllLive from forest.now.forest.nodes }
    ensures value { GivesBounded EvalFault.Memory EvalFault.Long (λ found. found) result (walked (setting_of called (A.given around.now) forest.now.forest.nodes context.now) (map walk_of steps.now) from) }
    ensures live { IfOk result (λ found. AllLive found forest.now.forest.nodes) }
{
    let mut nodes = from;
    for step in steps {
        let way = way_of(forest, step, &nodes);
        let start = started(alloc, forest, way.is_below, nodes)?;
        nodes = taken(alloc, forest, around, way.axis, step, &start, context)?;
    }
    Ok(nodes)
}

/// The nodes that a chain of steps reaches from one.
#[cycle(value)]
pub(crate) fn walked_from<A: Around>(
    alloc: Global,
    forest: &Forest,
    around: &A,
    steps: &[Step],
    node: NodeId,
    context: &Context,
) -> Result<NodeList, EvalFault>
    requires ready { IsReady (A.given around.now) forest.now.forest.nodes context.now }
    requires node { IsLive node.number forest.now.forest }
    ensures value { GivesBounded EvalFault.Memory EvalFault.Long (λ found. found) result (walked (setting_of called (A.given around.now) forest.now.forest.nodes context.now) (map walk_of steps.now) (node.number ∷ [])) }
    ensures live { IfOk result (λ found. AllLive found forest.now.forest.nodes) }
{
    let Some((first, behind)) = steps.split_first() else {
        return Ok(single(alloc, node)?);
    };
    let nodes = stepped(alloc, forest, around, first, node, context)?;
    walked(alloc, forest, around, behind, nodes, context)
}

/// What a step selects from one node, in document order, each once.
#[cycle(value)]
pub(crate) fn stepped<A: Around>(
    alloc: Global,
    forest: &Forest,
    around: &A,
    step: &Step,
    node: NodeId,
    context: &Context,
) -> Result<NodeList, EvalFault>
    requires ready { IsReady (A.given around.now) forest.now.forest.nodes context.now }
    requires node { IsLive node.number forest.now.forest }
    ensures value { GivesBounded EvalFault.Memory EvalFault.Long (λ found. found) result (walk_of step.now (setting_of called (A.given around.now) forest.now.forest.nodes context.now) (node.number ∷ [])) }
    ensures live { IfOk result (λ found. AllLive found forest.now.forest.nodes) }
{
    let way = way_of_one(forest, step, node);
    if way.is_below {
        let start = down_from(alloc, forest, node)?;
        return taken(alloc, forest, around, way.axis, step, &start, context);
    }
    taken_from(alloc, forest, around, way.axis, step, node, context)
}

/// What a step selects on an axis from one node, in document order, each once.
#[cycle(value)]
fn taken_from<A: Around>(
    alloc: Global,
    forest: &Forest,
    around: &A,
    axis: Axis,
    step: &Step,
    node: NodeId,
    context: &Context,
) -> Result<NodeList, EvalFault>
    requires ready { IsReady (A.given around.now) forest.now.forest.nodes context.now }
    requires node { IsLive node.number forest.now.forest }
    ensures value { GivesBounded EvalFault.Memory EvalFault.Long (λ found. found) result (taken axis step.now.test (map meaning step.now.predicates) (setting_of called (A.given around.now) forest.now.forest.nodes context.now) (node.number ∷ [])) }
    ensures live { IfOk result (λ found. AllLive found forest.now.forest.nodes) }
{
    forest.are_trees();
    let predicates = step.predicates.as_slice();
    if predicates.is_empty() {
        let found = reached(alloc, forest, node, axis, &step.test)?;
        return Ok(ordered(forest, axis, found)?);
    }
    let kept = from_one(alloc, forest, around, axis, step, node, context)?;
    Ok(ordered(forest, axis, kept)?)
}

/// What a step selects on an axis from each of these nodes, in document order, each once.
#[cycle(value)]
pub(crate) fn taken<A: Around>(
    alloc: Global,
    forest: &Forest,
    around: &A,
    axis: Axis,
    step: &Step,
    from: &NodeList,
    context: &Context,
) -> Result<NodeList, EvalFault>
    requires ready { IsReady (A.given around.now) forest.now.forest.nodes context.now }
    requires from { AllLive from.now forest.now.forest.nodes }
    ensures value { GivesBounded EvalFault.Memory EvalFault.Long (λ found. found) result (taken axis step.now.test (map meaning step.now.predicates) (setting_of called (A.given around.now) forest.now.forest.nodes context.now) from.now) }
    ensures live { IfOk result (λ found. AllLive found forest.now.forest.nodes) }
{
    if from.len() == 1 {
        return taken_from(alloc, forest, around, axis, step, from.at(0), context);
    }
    if step.predicates.as_slice().is_empty() {
        let found = reach_all(alloc, forest, from, axis, &step.test)?;
        return Ok(forest.put_in_order(found)?);
    }
    let mut found = NodeList::new(alloc);
    for node in from.as_slice() {
        take(
            &mut found, alloc, forest, around, axis, step, *node, context,
        )?;
    }
    Ok(forest.put_in_order(found)?)
}

/// Puts behind other nodes what a step selects on an axis from a node.
#[cycle(value)]
fn take<A: Around>(
    found: &mut NodeList,
    alloc: Global,
    forest: &Forest,
    around: &A,
    axis: Axis,
    step: &Step,
    node: NodeId,
    context: &Context,
) -> Result<(), EvalFault>
    requires ready { IsReady (A.given around.now) forest.now.forest.nodes context.now }
    requires node { IsLive node.number forest.now.forest }
    ensures value { GivesBounded EvalFault.Memory EvalFault.Long (λ _. found.new) result (option_map (λ kept. found.old ++ kept) (from_one axis step.now.test (map meaning step.now.predicates) (setting_of called (A.given around.now) forest.now.forest.nodes context.now) node.number)) }
{
    // Most nodes below which `//` begins have nothing to ask.
    if !reaches_any(forest, node, axis, &step.test) {
        return Ok(());
    }
    let kept = from_one(alloc, forest, around, axis, step, node, context)?;
    append(found, &kept)?;
    Ok(())
}

/// What a step selects on an axis from one node, in the order of the axis: positions count from that node.
#[cycle(value)]
fn from_one<A: Around>(
    alloc: Global,
    forest: &Forest,
    around: &A,
    axis: Axis,
    step: &Step,
    node: NodeId,
    context: &Context,
) -> Result<NodeList, EvalFault>
    requires ready { IsReady (A.given around.now) forest.now.forest.nodes context.now }
    requires node { IsLive node.number forest.now.forest }
    ensures value { GivesBounded EvalFault.Memory EvalFault.Long (λ kept. kept) result (from_one axis step.now.test (map meaning step.now.predicates) (setting_of called (A.given around.now) forest.now.forest.nodes context.now) node.number) }
    ensures live { IfOk result (λ kept. AllLive kept forest.now.forest.nodes) }
{
    let predicates = step.predicates.as_slice();
    match number_first(predicates) {
        Some(number) => {
            let decimals = around.decimals();
            let first = reached_placed(alloc, forest, node, axis, &step.test, number, decimals)?;
            kept_by_all(alloc, forest, around, predicates, 1, first, context)
        }
        None => {
            let nodes = reached(alloc, forest, node, axis, &step.test)?;
            kept_by_all(alloc, forest, around, predicates, 0, nodes, context)
        }
    }
}

/// The nodes that all predicates keep but so many first ones, each asked of those that the one before left.
#[cycle(value)]
pub(crate) fn kept_by_all<A: Around>(
    alloc: Global,
    forest: &Forest,
    around: &A,
    predicates: &[Expr],
    asked: usize,
    nodes: NodeList,
    context: &Context,
) -> Result<NodeList, EvalFault>
    requires ready { IsReady (A.given around.now) forest.now.forest.nodes context.now }
    requires from { AllLive nodes forest.now.forest.nodes }
    ensures value { GivesBounded EvalFault.Memory EvalFault.Long (λ found. found) result (kept_by_all (setting_of called (A.given around.now) forest.now.forest.nodes context.now) (map meaning (drop asked predicates.now)) nodes) }
    ensures live { IfOk result (λ found. AllLive found forest.now.forest.nodes) }
{
    let mut left = nodes;
    for at in asked..predicates.len() {
        left = kept_by(alloc, forest, around, &predicates[at], &left, context)?;
    }
    Ok(left)
}

/// The nodes at which a predicate is true: each has its position among them.
#[cycle(value)]
fn kept_by<A: Around>(
    alloc: Global,
    forest: &Forest,
    around: &A,
    predicate: &Expr,
    nodes: &NodeList,
    context: &Context,
) -> Result<NodeList, EvalFault>
    requires ready { IsReady (A.given around.now) forest.now.forest.nodes context.now }
    requires from { AllLive nodes.now forest.now.forest.nodes }
    ensures value { GivesBounded EvalFault.Memory EvalFault.Long (λ found. found) result (kept_from (setting_of called (A.given around.now) forest.now.forest.nodes context.now) (meaning predicate.now) (length nodes.now) 1 nodes.now) }
    ensures live { IfOk result (λ found. AllLive found forest.now.forest.nodes) }
{
    if let Expr::Number(_, number) = predicate {
        return Ok(placed(alloc, nodes, *number, around.decimals())?);
    }
    asked_of_each(alloc, forest, around, predicate, nodes, context)
}

/// The nodes at which a predicate is true, which is evaluated at each.
#[cycle(value)]
fn asked_of_each<A: Around>(
    alloc: Global,
    forest: &Forest,
    around: &A,
    predicate: &Expr,
    nodes: &NodeList,
    context: &Context,
) -> Result<NodeList, EvalFault>
    requires ready { IsReady (A.given around.now) forest.now.forest.nodes context.now }
    requires from { AllLive nodes.now forest.now.forest.nodes }
    ensures value { GivesBounded EvalFault.Memory EvalFault.Long (λ found. found) result (kept_from (setting_of called (A.given around.now) forest.now.forest.nodes context.now) (meaning predicate.now) (length nodes.now) 1 nodes.now) }
    ensures live { IfOk result (λ found. AllLive found forest.now.forest.nodes) }
{
    // No memory holds a list that a position cannot count.
    let Ok(size) = u32::try_from(nodes.len()) else {
        return Err(EvalFault::Memory);
    };
    let decimals = around.decimals();
    let mut kept = NodeList::new(alloc);
    for at in 0..size {
        let node = nodes.at(at as usize);
        let place = Context {
            model: context.model,
            node,
            position: at + 1,
            size,
            current: context.current,
        };
        let value = asked_at(alloc, forest, around, true, predicate, &place)?;
        if is_true_at(&value, at + 1, decimals) {
            kept.push(node)?;
        }
    }
    Ok(kept)
}

/// Whether a predicate with this value keeps the node at a position: a number is true at its own (XPath 1.0, section 2.4).
pub fn is_true_at(value: &Value, position: u32, decimals: Decimals) -> bool
    ensures { result ≡ is_true_at decimals position value.now }
{
    match value {
        Value::Number(number) => {
            number.order(whole(position as usize, decimals)) == Some(Ordering::Equal)
        }
        _ => truth_of(value),
    }
}

/// Where a path begins: at the top of the context node's tree, or at the context node.
pub(crate) fn begun(forest: &Forest, start: Start, context: &Context) -> NodeId
    requires node { IsLive context.now.node.number forest.now.forest }
    ensures value { result.number ∷ [] ≡ begun start (bare_setting forest.now.forest.nodes) (focus_of context.now) }
    ensures live { IsLive result.number forest.now.forest }
{
    match start {
        Start::Root => forest.top(context.node),
        Start::Context => context.node,
    }
}
