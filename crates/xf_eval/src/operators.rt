//! Operators (XPath 1.0, sections 3.3 to 3.5).

ghost use Rattle.std.specs.Prelude.{◌≡◌, ◌++◌, IfOk, map};
ghost use Rattle.xf_def_forest.specs.Order.{in_order};
ghost use Rattle.xf_def_values.specs.Bounded.{GivesBounded};
ghost use Rattle.xf_def_xpath.specs.Conversions.{nodes_of};
ghost use Rattle.xf_def_xpath.specs.Operators.{chained, linked};
ghost use Rattle.xf_def_xpath.specs.Meaning.{focus_of, meaning, meaning_of_link, setting_of};
ghost use Rattle.xf_funcs.specs.Called.{called};
ghost use Rattle.xf_eval.specs.Live.{AllLive, IsReady};
ghost use Rattle.xf_eval.specs.Worth.{seen, setting_in};
ghost use Rattle.xf_eval.specs.Answered.{answered, arithmetic, decides};

use crate::around::Around;
use crate::compare::compared_values;
use crate::convert::{number_of, truth_of};
use crate::first::{asked_at, converts};
use crate::sets::{append, nodes_in};
use std::alloc::{AllocError, Global};
use xf_def_forest::NodeList;
use xf_def_syntax::{Link, Operator};
use xf_def_xpath::{Context, EvalFault, Value};
use xf_num::{Decimals, Num};
use xf_tree::Forest;

/// A chain of operators from left to right.
#[cycle(value)]
pub(crate) fn chained<A: Around>(
    alloc: Global,
    forest: &Forest,
    around: &A,
    links: &[Link],
    first: Value,
    context: &Context,
) -> Result<Value, EvalFault>
    requires ready { IsReady (A.given around.now) forest.now.forest.nodes context.now }
    requires left { AllLive (nodes_of first) forest.now.forest.nodes }
    ensures value { GivesBounded EvalFault.Memory EvalFault.Long (λ value. value) result (chained (map meaning_of_link links.now) first (setting_of called (A.given around.now) forest.now.forest.nodes context.now) (focus_of context.now)) }
    ensures live { IfOk result (λ value. AllLive (nodes_of value) forest.now.forest.nodes) }
{
    let mut left = first;
    for link in links {
        left = linked(alloc, forest, around, link, left, context)?;
    }
    Ok(left)
}

/// One operator: the right side of `or` and `and` is evaluated only where the left one does not decide.
#[cycle(value)]
fn linked<A: Around>(
    alloc: Global,
    forest: &Forest,
    around: &A,
    link: &Link,
    left: Value,
    context: &Context,
) -> Result<Value, EvalFault>
    requires ready { IsReady (A.given around.now) forest.now.forest.nodes context.now }
    requires left { AllLive (nodes_of left) forest.now.forest.nodes }
    ensures value { GivesBounded EvalFault.Memory EvalFault.Long (λ value. value) result (linked link.now.operator left (meaning link.now.right) (setting_of called (A.given around.now) forest.now.forest.nodes context.now) (focus_of context.now)) }
    ensures live { IfOk result (λ value. AllLive (nodes_of value) forest.now.forest.nodes) }
{
    if decides(link.operator, truth_of(&left)) {
        return Ok(Value::Truth(truth_of(&left)));
    }
    let is_converted = converts(link.operator);
    let right = asked_at(alloc, forest, around, is_converted, &link.right, context)?;
    combined(alloc, forest, link.operator, left, right, around.decimals())
}

/// Whether the left side alone decides.
fn decides(operator: Operator, left: bool) -> bool
    ensures { result ≡ decides operator left }
{
    match operator {
        Operator::Or => left,
        Operator::And => !left,
        _ => false,
    }
}

fn combined(
    alloc: Global,
    forest: &Forest,
    operator: Operator,
    left: Value,
    right: Value,
    decimals: Decimals,
) -> Result<Value, EvalFault>
    requires left { AllLive (nodes_of left) forest.now.forest.nodes }
    requires right { AllLive (nodes_of right) forest.now.forest.nodes }
    ensures value { GivesBounded EvalFault.Memory EvalFault.Long (λ value. value) result (answered operator (setting_in decimals forest.now.forest.nodes) left right) }
    ensures live { IfOk result (λ value. AllLive (nodes_of value) forest.now.forest.nodes) }
{
    match operator {
        Operator::Or | Operator::And => Ok(Value::Truth(truth_of(&right))),
        Operator::Union => Ok(Value::Nodes(united(alloc, forest, left, right)?)),
        Operator::Add
        | Operator::Subtract
        | Operator::Multiply
        | Operator::Divide
        | Operator::Modulo => {
            let one = number_of(alloc, forest, &left, decimals)?;
            let other = number_of(alloc, forest, &right, decimals)?;
            Ok(Value::Number(computed(operator, one, other, decimals)))
        }
        _ => Ok(Value::Truth(compared_values(alloc, forest, operator, left, right, decimals)?)),
    }
}

fn computed(operator: Operator, left: Num, right: Num, decimals: Decimals) -> Num
    ensures { result ≡ arithmetic decimals operator left right }
{
    match operator {
        Operator::Add => left.add(right),
        Operator::Subtract => left.sub(right),
        Operator::Multiply => left.mul(right, decimals),
        Operator::Divide => left.div(right, decimals),
        _ => left.rem(right),
    }
}

/// The nodes of both, in document order, each once.
fn united(alloc: Global, forest: &Forest, left: Value, right: Value) -> Result<NodeList, AllocError>
    requires left { AllLive (nodes_of left) forest.now.forest.nodes }
    requires right { AllLive (nodes_of right) forest.now.forest.nodes }
    ensures value { IfOk result (λ nodes. nodes ≡ in_order (seen forest.now.forest.nodes) (nodes_of left ++ nodes_of right)) }
    ensures live { IfOk result (λ nodes. AllLive nodes forest.now.forest.nodes) }
{
    let mut nodes = nodes_in(alloc, left);
    let more = nodes_in(alloc, right);
    append(&mut nodes, &more)?;
    forest.put_in_order(nodes)
}
