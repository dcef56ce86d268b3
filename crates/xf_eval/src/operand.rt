//! Comparisons of what two expressions give (XPath 1.0, section 3.4): no value is made of a literal, a path or a place.

ghost use Rattle.std.specs.Prelude.{◌≡◌, ◌∷◌, [], true, IfOk, IfSome};
ghost use Rattle.xf_def_values.specs.Bounded.{GivesBounded};
ghost use Rattle.xf_funcs.specs.Called.{called};
ghost use Rattle.xf_def_xpath.specs.Conversions.{nodes_of};
ghost use Rattle.xf_def_xpath.specs.Meaning.{focus_of, meaning, meaning_of_link, setting_of};
ghost use Rattle.xf_def_xpath.specs.Operators.{chained};
ghost use Rattle.xf_eval.specs.Live.{AllLive, IsReady};
ghost use Rattle.xf_eval.specs.Sides.{value_in};
ghost use Rattle.xf_eval.specs.Answered.{compares};

use crate::around::Around;
use crate::compare::{Operand, Side, compared, operand_of};
use crate::convert::place_in;
use crate::expression::value_at;
use crate::kinds::{Kind, kind_of};
use crate::steps::{begun, walked_from};
use crate::texts::lent;
use std::alloc::Global;
use xf_def_syntax::{Expr, Link, Operator};
use xf_def_xpath::{Context, EvalFault, Value};
use xf_tree::Forest;

/// The one operator of a chain, where it has one alone, which compares.
pub(crate) fn comparison(links: &[Link]) -> Option<&Link>
    ensures { IfSome result (λ link. (links.now ≡ link.now ∷ []) × (compares link.now.operator ≡ true)) }
{
    match links {
        [link] if compares(link.operator) => Some(link),
        _ => None,
    }
}

fn compares(operator: Operator) -> bool
    ensures { result ≡ compares operator }
{
    match operator {
        Operator::Equal
        | Operator::NotEqual
        | Operator::Less
        | Operator::LessOrEqual
        | Operator::Greater
        | Operator::GreaterOrEqual => true,
        _ => false,
    }
}

/// Whether some pair of one side and of what stands behind the operator is as that says.
#[cycle(value)]
pub(crate) fn compared_with<A: Around>(
    alloc: Global,
    forest: &Forest,
    around: &A,
    left: &Operand<'_>,
    link: &Link,
    context: &Context,
) -> Result<Value, EvalFault>
    requires ready { IsReady (A.given around.now) forest.now.forest.nodes context.now }
    requires left { AllLive (nodes_of (value_in left.now)) forest.now.forest.nodes }
    requires compares { compares link.now.operator ≡ true }
    ensures value { GivesBounded EvalFault.Memory EvalFault.Long (λ value. value) result (chained (meaning_of_link link.now ∷ []) (value_in left.now) (setting_of called (A.given around.now) forest.now.forest.nodes context.now) (focus_of context.now)) }
    ensures live { IfOk result (λ value. AllLive (nodes_of value) forest.now.forest.nodes) }
{
    let right = operand_at(alloc, forest, around, &link.right, context)?;
    let decimals = around.decimals();
    let truth = compared(alloc, forest, link.operator, left, &right, decimals)?;
    Ok(Value::Truth(truth))
}

/// What an expression gives for one side of a comparison.
#[cycle(value)]
pub(crate) fn operand_at<'a, A: Around>(
    alloc: Global,
    forest: &Forest,
    around: &A,
    expr: &'a Expr,
    context: &Context,
) -> Result<Operand<'a>, EvalFault>
    requires { IsReady (A.given around.now) forest.now.forest.nodes context.now }
    ensures value { GivesBounded EvalFault.Memory EvalFault.Long value_in result (meaning expr.now (setting_of called (A.given around.now) forest.now.forest.nodes context.now) (focus_of context.now)) }
    ensures live { IfOk result (λ operand. AllLive (nodes_of (value_in operand)) forest.now.forest.nodes) }
{
    match expr {
        Expr::Number(_, number) => Ok(Operand::Plain(Side::Number(*number))),
        Expr::Literal(_, text) => Ok(Operand::Plain(Side::Text(lent(text.as_str())?))),
        Expr::Path(_, start, steps) => {
            let from = begun(forest, *start, context);
            let nodes = walked_from(alloc, forest, around, steps.as_slice(), from, context)?;
            Ok(Operand::Nodes(nodes))
        }
        Expr::Call(_, code, _) => match kind_of(*code) {
            Kind::Last => Ok(Operand::Plain(Side::Number(place_in(around, context.size)))),
            Kind::Position => Ok(Operand::Plain(Side::Number(place_in(around, context.position)))),
            _ => Ok(operand_of(value_at(alloc, forest, around, expr, context)?)),
        },
        _ => Ok(operand_of(value_at(alloc, forest, around, expr, context)?)),
    }
}
