//! The value of an expression: one level of the syntax tree over the values of its parts (XPath 1.0, section 3).

ghost use Rattle.std.specs.Prelude.{◌≡◌, ◌+◌, IfOk};
ghost use Rattle.xf_base.specs.Gives.{Gives};
ghost use Rattle.xf_def_values.specs.Bounded.{GivesBounded};
ghost use Rattle.xf_funcs.specs.Called.{called};
ghost use Rattle.xf_def_xpath.specs.Conversions.{nodes_of};
ghost use Rattle.xf_def_xpath.specs.Operators.{signed};
ghost use Rattle.xf_def_xpath.specs.Meaning.{focus_of, meaning, setting_of, value_of};
ghost use Rattle.xf_eval.specs.Live.{AllLive, IsReady};
ghost use Rattle.xf_eval.specs.Worth.{negated_worth};

use crate::around::Around;
use crate::calls::call_value;
use crate::convert::{kept_text, number_of};
use crate::first::{asked_at, leads};
use crate::kinds::kind_of;
use crate::operand::{compared_with, comparison, operand_at};
use crate::operators::chained;
use crate::sets::nodes_in;
use crate::steps::{begun, kept_by_all, walked, walked_from};
use std::alloc::Global;
use std::sync::ledger::Ledger;
use xf_def_syntax::Expr;
use xf_def_xpath::{Context, EvalFault, Value};
use xf_num::{Num, Steps};
use xf_tree::Forest;

/// The value of an expression over a forest (XPath 1.0, section 3); `Long` where a string that is made on the way has more than 4 MiB.
/// Counts one step.
pub fn evaluate<A: Around, L: Ledger>(
    alloc: Global,
    forest: &Forest,
    expr: &Expr,
    context: &Context,
    around: &A,
    steps: &mut Steps<L>,
) -> Result<Value, EvalFault>
    requires { IsReady (A.given around.now) forest.now.forest.nodes context.now }
    ensures value { Gives EvalFault.Memory (λ value. value) result (value_of called (A.given around.now) forest.now.forest.nodes expr.now context.now) }
    ensures live { IfOk result (λ value. AllLive (nodes_of value) forest.now.forest.nodes) }
    ensures steps { steps.new ≡ steps.old + 1 }
{
    steps.tick();
    value_at(alloc, forest, around, expr, context)
}

/// The value of an expression over a forest, as by `evaluate`, without a step.
#[cycle(value)]
pub fn value_at<A: Around>(
    alloc: Global,
    forest: &Forest,
    around: &A,
    expr: &Expr,
    context: &Context,
) -> Result<Value, EvalFault>
    requires { IsReady (A.given around.now) forest.now.forest.nodes context.now }
    ensures value { GivesBounded EvalFault.Memory EvalFault.Long (λ value. value) result (meaning expr.now (setting_of called (A.given around.now) forest.now.forest.nodes context.now) (focus_of context.now)) }
    ensures live { IfOk result (λ value. AllLive (nodes_of value) forest.now.forest.nodes) }
{
    match expr {
        Expr::Number(_, number) => Ok(Value::Number(*number)),
        Expr::Literal(_, text) => Ok(Value::Text(kept_text(alloc, text.as_str())?)),
        Expr::Call(_, code, arguments) => {
            let kind = kind_of(*code);
            let given = arguments.as_slice();
            call_value(alloc, forest, around, kind, *code, given, context)
        }
        Expr::Negated(_, signs, operand) => {
            negated(alloc, forest, around, *signs, operand.get(), context)
        }
        Expr::Chain(first, links) => {
            let behind = links.as_slice();
            if let Some(link) = comparison(behind) {
                let left = operand_at(alloc, forest, around, first.get(), context)?;
                return compared_with(alloc, forest, around, &left, link, context);
            }
            let is_converted = leads(behind);
            let start = first.get();
            let left = asked_at(alloc, forest, around, is_converted, start, context)?;
            chained(alloc, forest, around, behind, left, context)
        }
        Expr::Filter(first, predicates) => {
            let value = value_at(alloc, forest, around, first.get(), context)?;
            let nodes = nodes_in(alloc, value);
            let asked = predicates.as_slice();
            let kept = kept_by_all(alloc, forest, around, asked, 0, nodes, context)?;
            Ok(Value::Nodes(kept))
        }
        Expr::Path(_, start, steps) => {
            let from = begun(forest, *start, context);
            let nodes = walked_from(alloc, forest, around, steps.as_slice(), from, context)?;
            Ok(Value::Nodes(nodes))
        }
        Expr::From(first, steps) => {
            let value = value_at(alloc, forest, around, first.get(), context)?;
            let from = nodes_in(alloc, value);
            let nodes = walked(alloc, forest, around, steps.as_slice(), from, context)?;
            Ok(Value::Nodes(nodes))
        }
    }
}

/// The number that an expression is behind so many signs.
#[cycle(value)]
fn negated<A: Around>(
    alloc: Global,
    forest: &Forest,
    around: &A,
    signs: u32,
    operand: &Expr,
    context: &Context,
) -> Result<Value, EvalFault>
    requires { IsReady (A.given around.now) forest.now.forest.nodes context.now }
    ensures value { GivesBounded EvalFault.Memory EvalFault.Long (λ value. value) result (negated_worth (A.given around.now).decimals signs forest.now.forest.nodes (meaning operand.now (setting_of called (A.given around.now) forest.now.forest.nodes context.now) (focus_of context.now))) }
    ensures live { IfOk result (λ value. AllLive (nodes_of value) forest.now.forest.nodes) }
{
    let value = asked_at(alloc, forest, around, true, operand, context)?;
    let number = number_of(alloc, forest, &value, around.decimals())?;
    Ok(Value::Number(signed(signs, number)))
}

/// The number behind so many signs.
fn signed(signs: u32, number: Num) -> Num
    ensures { result ≡ signed signs number }
{
    if signs % 2 == 0 {
        number
    } else {
        Num::of_units(0).sub(number)
    }
}
