//! Values of which only the first node counts, since they are converted to a text, a number or a truth (XPath 1.0, sections 3.2 and
//! 4.2 to 4.4).

ghost use Rattle.std.specs.Prelude.{◌≡◌, ◌∷◌, [], IfOk, map, option_map};
ghost use Rattle.xf_def_forest.specs.Forest.{IsLive};
ghost use Rattle.xf_def_values.specs.Bounded.{GivesBounded};
ghost use Rattle.xf_funcs.specs.Called.{called};
ghost use Rattle.xf_def_xpath.specs.Conversions.{nodes_of};
ghost use Rattle.xf_def_xpath.specs.Steps.{walked};
ghost use Rattle.xf_def_xpath.specs.Meaning.{focus_of, meaning, setting_of, walk_of};
ghost use Rattle.xf_eval.specs.First.{converts, counted, first_node, leads, takes_plain};
ghost use Rattle.xf_eval.specs.Live.{AllLive, IsReady};

use crate::around::Around;
use crate::expression::value_at;
use crate::kinds::Kind;
use crate::order::is_reverse;
use crate::sets::{listed, nodes_in, reached_at, single, started};
use crate::steps::{begun, stepped, taken, walked, walked_from};
use crate::ways::{way_of, way_of_one};
use std::alloc::Global;
use xf_def_forest::{NodeId, NodeList};
use xf_def_syntax::{Expr, Link, Operator, Step};
use xf_def_xpath::{Context, EvalFault, Value};
use xf_tree::Forest;

/// The value of an expression; where it is to be converted, its first node stands for a set, and no other one needs to be found.
#[cycle(value)]
pub(crate) fn asked_at<A: Around>(
    alloc: Global,
    forest: &Forest,
    around: &A,
    is_converted: bool,
    expr: &Expr,
    context: &Context,
) -> Result<Value, EvalFault>
    requires { IsReady (A.given around.now) forest.now.forest.nodes context.now }
    ensures value { GivesBounded EvalFault.Memory EvalFault.Long (counted is_converted) result (option_map (counted is_converted) (meaning expr.now (setting_of called (A.given around.now) forest.now.forest.nodes context.now) (focus_of context.now))) }
    ensures live { IfOk result (λ value. AllLive (nodes_of value) forest.now.forest.nodes) }
{
    if !is_converted {
        return value_at(alloc, forest, around, expr, context);
    }
    match expr {
        Expr::Path(_, start, steps) => {
            let from = begun(forest, *start, context);
            let nodes = first_from(alloc, forest, around, steps.as_slice(), from, context)?;
            Ok(Value::Nodes(nodes))
        }
        Expr::From(first, steps) => {
            let value = value_at(alloc, forest, around, first.get(), context)?;
            let from = nodes_in(alloc, value);
            let behind = steps.as_slice();
            let nodes = first_walked(alloc, forest, around, behind, from, context)?;
            Ok(Value::Nodes(nodes))
        }
        _ => value_at(alloc, forest, around, expr, context),
    }
}

/// The nodes that a chain of steps reaches from one, or the first of them alone.
#[cycle(value)]
fn first_from<A: Around>(
    alloc: Global,
    forest: &Forest,
    around: &A,
    steps: &[Step],
    node: NodeId,
    context: &Context,
) -> Result<NodeList, EvalFault>
    requires ready { IsReady (A.given around.now) forest.now.forest.nodes context.now }
    requires node { IsLive node.number forest.now.forest }
    ensures value { GivesBounded EvalFault.Memory EvalFault.Long first_node result (option_map first_node (walked (setting_of called (A.given around.now) forest.now.forest.nodes context.now) (map walk_of steps.now) (node.number ∷ []))) }
    ensures live { IfOk result (λ found. AllLive found forest.now.forest.nodes) }
{
    let count = steps.len();
    if count == 0 {
        return Ok(single(alloc, node)?);
    }
    if count == 1 {
        return first_stepped(alloc, forest, around, &steps[0], node, context);
    }
    let nodes = walked_from(alloc, forest, around, &steps[..count - 1], node, context)?;
    first_taken(alloc, forest, around, &steps[count - 1], nodes, context)
}

/// The nodes that a step reaches from one, or the first of them alone: on a forward axis the walk stops there.
#[cycle(value)]
fn first_stepped<A: Around>(
    alloc: Global,
    forest: &Forest,
    around: &A,
    step: &Step,
    node: NodeId,
    context: &Context,
) -> Result<NodeList, EvalFault>
    requires ready { IsReady (A.given around.now) forest.now.forest.nodes context.now }
    requires node { IsLive node.number forest.now.forest }
    ensures value { GivesBounded EvalFault.Memory EvalFault.Long first_node result (option_map first_node (walk_of step.now (setting_of called (A.given around.now) forest.now.forest.nodes context.now) (node.number ∷ []))) }
    ensures live { IfOk result (λ found. AllLive found forest.now.forest.nodes) }
{
    forest.are_trees();
    let way = way_of_one(forest, step, node);
    let asked = step.predicates.len();
    if !is_reverse(way.axis) && asked == 0 && !way.is_below {
        let first = reached_at(forest, node, way.axis, &step.test, 0);
        return Ok(listed(alloc, first)?);
    }
    stepped(alloc, forest, around, step, node, context)
}

/// The nodes that a chain of steps reaches from these, or the first of them alone.
#[cycle(value)]
fn first_walked<A: Around>(
    alloc: Global,
    forest: &Forest,
    around: &A,
    steps: &[Step],
    from: NodeList,
    context: &Context,
) -> Result<NodeList, EvalFault>
    requires ready { IsReady (A.given around.now) forest.now.forest.nodes context.now }
    requires from { AllLive from forest.now.forest.nodes }
    ensures value { GivesBounded EvalFault.Memory EvalFault.Long first_node result (option_map first_node (walked (setting_of called (A.given around.now) forest.now.forest.nodes context.now) (map walk_of steps.now) from)) }
    ensures live { IfOk result (λ found. AllLive found forest.now.forest.nodes) }
{
    let count = steps.len();
    if count == 0 {
        return Ok(from);
    }
    let nodes = walked(alloc, forest, around, &steps[..count - 1], from, context)?;
    first_taken(alloc, forest, around, &steps[count - 1], nodes, context)
}

/// The nodes that a step reaches from these, or the first of them alone: on a forward axis from one node the walk stops there.
#[cycle(value)]
fn first_taken<A: Around>(
    alloc: Global,
    forest: &Forest,
    around: &A,
    step: &Step,
    from: NodeList,
    context: &Context,
) -> Result<NodeList, EvalFault>
    requires ready { IsReady (A.given around.now) forest.now.forest.nodes context.now }
    requires from { AllLive from forest.now.forest.nodes }
    ensures value { GivesBounded EvalFault.Memory EvalFault.Long first_node result (option_map first_node (walk_of step.now (setting_of called (A.given around.now) forest.now.forest.nodes context.now) from)) }
    ensures live { IfOk result (λ found. AllLive found forest.now.forest.nodes) }
{
    forest.are_trees();
    let way = way_of(forest, step, &from);
    let start = started(alloc, forest, way.is_below, from)?;
    let asked = step.predicates.len();
    let count = start.len();
    if !is_reverse(way.axis) && asked == 0 && count == 1 {
        let first = reached_at(forest, start.at(0), way.axis, &step.test, 0);
        return Ok(listed(alloc, first)?);
    }
    taken(alloc, forest, around, way.axis, step, &start, context)
}

/// Whether an operator converts both of its sides.
pub(crate) fn converts(operator: Operator) -> bool
    ensures { result ≡ converts operator }
{
    match operator {
        Operator::Or
        | Operator::And
        | Operator::Add
        | Operator::Subtract
        | Operator::Multiply
        | Operator::Divide
        | Operator::Modulo => true,
        _ => false,
    }
}

/// Whether the first operator of a chain converts the value before it.
pub(crate) fn leads(links: &[Link]) -> bool
    ensures { result ≡ leads links.now }
{
    match links.first() {
        Some(link) => converts(link.operator),
        None => false,
    }
}

/// Whether a function converts its one argument.
pub(crate) fn takes_plain(kind: Kind) -> bool
    ensures { result ≡ takes_plain kind }
{
    match kind {
        Kind::Boolean | Kind::Not | Kind::Event | Kind::Index | Kind::Instance => true,
        _ => false,
    }
}
