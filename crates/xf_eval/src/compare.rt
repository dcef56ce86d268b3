//! Comparisons (XPath 1.0, section 3.4).

ghost use Rattle.std.specs.Prelude.{◌≡◌, map, option_map, IfOk};
ghost use Rattle.std.specs.List.{list_any};
ghost use Rattle.xf_def_values.specs.Bounded.{GivesBounded};
ghost use Rattle.xf_def_values.specs.Conversions.{number_in, truth_in};
ghost use Rattle.xf_def_values.specs.declared.plain.Plain.TheVariants as plain;
ghost use Rattle.xf_def_xpath.specs.declared.value.Value.TheVariants.{Nodes};
ghost use Rattle.xf_def_xpath.specs.Conversions.{nodes_of, strings_of, value_of_plain};
ghost use Rattle.xf_def_xpath.specs.Comparisons.{are_equal, compared, holds, order_in};
ghost use Rattle.xf_eval.specs.Live.{AllLive};
ghost use Rattle.xf_eval.specs.Sides.{holds_for_some, plain_on, some_beside, value_in};
ghost use Rattle.xf_eval.specs.Worth.{bare_setting, setting_in};

use crate::convert::{is_not_zero, number_of_truth};
use crate::texts::{StringValue, value_of_node};
use std::alloc::Global;
use std::cmp::Ordering;
use std::slice;
use xf_def_forest::NodeList;
use xf_def_syntax::Operator;
use xf_def_xpath::{EvalFault, Value};
use xf_num::{Decimals, Num};
use xf_tree::Forest;

/// One side of a comparison: a plain value, its text lent or made.
#[derive(Drop)]
pub(crate) enum Side<'a> {
    Text(StringValue<'a>),
    Number(Num),
    Truth(bool),
}

/// One side of a comparison as it was evaluated: nodes, or a plain value.
#[derive(Drop)]
pub(crate) enum Operand<'a> {
    Nodes(NodeList),
    Plain(Side<'a>),
}

/// A value as one side of a comparison.
pub(crate) fn operand_of<'a>(value: Value) -> Operand<'a>
    ensures { value_in result ≡ value }
{
    match value {
        Value::Nodes(nodes) => Operand::Nodes(nodes),
        Value::Text(text) => Operand::Plain(Side::Text(StringValue::Made(text))),
        Value::Number(number) => Operand::Plain(Side::Number(number)),
        Value::Truth(truth) => Operand::Plain(Side::Truth(truth)),
    }
}

/// Whether some pair is as the operator says; beside a truth a set counts as a truth.
pub(crate) fn compared(
    alloc: Global,
    forest: &Forest,
    operator: Operator,
    left: &Operand<'_>,
    right: &Operand<'_>,
    decimals: Decimals,
) -> Result<bool, EvalFault>
    requires left { AllLive (nodes_of (value_in left.now)) forest.now.forest.nodes }
    requires right { AllLive (nodes_of (value_in right.now)) forest.now.forest.nodes }
    ensures { GivesBounded EvalFault.Memory EvalFault.Long (λ truth. truth) result (compared (setting_in decimals forest.now.forest.nodes) operator (value_in left.now) (value_in right.now)) }
{
    match left {
        Operand::Nodes(nodes) => set_beside(alloc, forest, operator, nodes, right, decimals),
        Operand::Plain(side) => plain_beside(alloc, forest, operator, side, right, decimals),
    }
}

/// The same of two values.
pub(crate) fn compared_values(
    alloc: Global,
    forest: &Forest,
    operator: Operator,
    left: Value,
    right: Value,
    decimals: Decimals,
) -> Result<bool, EvalFault>
    requires left { AllLive (nodes_of left) forest.now.forest.nodes }
    requires right { AllLive (nodes_of right) forest.now.forest.nodes }
    ensures { GivesBounded EvalFault.Memory EvalFault.Long (λ truth. truth) result (compared (setting_in decimals forest.now.forest.nodes) operator left right) }
{
    let one = operand_of(left);
    let other = operand_of(right);
    compared(alloc, forest, operator, &one, &other, decimals)
}

/// A set on the left.
fn set_beside(
    alloc: Global,
    forest: &Forest,
    operator: Operator,
    nodes: &NodeList,
    right: &Operand<'_>,
    decimals: Decimals,
) -> Result<bool, EvalFault>
    requires left { AllLive nodes.now forest.now.forest.nodes }
    requires right { AllLive (nodes_of (value_in right.now)) forest.now.forest.nodes }
    ensures { GivesBounded EvalFault.Memory EvalFault.Long (λ truth. truth) result (compared (setting_in decimals forest.now.forest.nodes) operator (Nodes nodes.now) (value_in right.now)) }
{
    match right {
        Operand::Nodes(others) => {
            let sides = sides_of(alloc, forest, others)?;
            some_beside(
                alloc,
                forest,
                operator,
                true,
                nodes,
                sides.as_slice(),
                decimals,
            )
        }
        Operand::Plain(side) => match side {
            Side::Truth(_) => Ok(holds(operator, &Side::Truth(!nodes.is_empty()), side, decimals)),
            _ => some_beside(
                alloc,
                forest,
                operator,
                true,
                nodes,
                slice::from_ref(side),
                decimals,
            ),
        },
    }
}

/// A plain value on the left.
fn plain_beside(
    alloc: Global,
    forest: &Forest,
    operator: Operator,
    left: &Side<'_>,
    right: &Operand<'_>,
    decimals: Decimals,
) -> Result<bool, EvalFault>
    requires { AllLive (nodes_of (value_in right.now)) forest.now.forest.nodes }
    ensures { GivesBounded EvalFault.Memory EvalFault.Long (λ truth. truth) result (compared (setting_in decimals forest.now.forest.nodes) operator (value_of_plain (plain_on left.now)) (value_in right.now)) }
{
    match right {
        Operand::Plain(side) => Ok(holds(operator, left, side, decimals)),
        Operand::Nodes(nodes) => match left {
            Side::Truth(_) => Ok(holds(operator, left, &Side::Truth(!nodes.is_empty()), decimals)),
            _ => some_beside(
                alloc,
                forest,
                operator,
                false,
                nodes,
                slice::from_ref(left),
                decimals,
            ),
        },
    }
}

/// The string values of nodes.
fn sides_of<'a>(
    alloc: Global,
    forest: &'a Forest,
    nodes: &NodeList,
) -> Result<Vec<Side<'a>>, EvalFault>
    requires { AllLive nodes.now forest.now.forest.nodes }
    ensures { GivesBounded EvalFault.Memory EvalFault.Long (λ sides. map plain_on sides.items) result (option_map (map plain.Text) (strings_of (bare_setting forest.now.forest.nodes) nodes.now)) }
{
    let mut sides = Vec::with_capacity(alloc, nodes.len())?;
    for node in nodes.as_slice() {
        sides.push(Side::Text(value_of_node(alloc, forest, *node)?))?;
    }
    Ok(sides)
}

/// Whether the operator holds for some node of a set, on the left or on the right, and some of the others.
fn some_beside(
    alloc: Global,
    forest: &Forest,
    operator: Operator,
    is_left: bool,
    nodes: &NodeList,
    others: &[Side<'_>],
    decimals: Decimals,
) -> Result<bool, EvalFault>
    requires { AllLive nodes.now forest.now.forest.nodes }
    ensures { GivesBounded EvalFault.Memory EvalFault.Long (λ truth. truth) result (option_map (some_beside decimals operator is_left others.now) (strings_of (bare_setting forest.now.forest.nodes) nodes.now)) }
{
    let mut found = false;
    for node in nodes.as_slice() {
        // Behind a hit too a string that is too long refuses the whole.
        let side = Side::Text(value_of_node(alloc, forest, *node)?);
        found = found || holds_for_some(operator, is_left, &side, others, decimals);
    }
    Ok(found)
}

fn holds_for_some(
    operator: Operator,
    is_left: bool,
    side: &Side<'_>,
    others: &[Side<'_>],
    decimals: Decimals,
) -> bool
    ensures { result ≡ holds_for_some decimals operator is_left others.now (plain_on side.now) }
{
    if is_left {
        is_before_some(operator, side, others, decimals)
    } else {
        is_behind_some(operator, side, others, decimals)
    }
}

fn is_before_some(
    operator: Operator,
    side: &Side<'_>,
    others: &[Side<'_>],
    decimals: Decimals,
) -> bool
    ensures { result ≡ list_any (λ other. holds decimals operator (plain_on side.now) (plain_on other)) others.now }
{
    others
        .iter()
        .any(|other| holds(operator, side, other, decimals))
}

fn is_behind_some(
    operator: Operator,
    side: &Side<'_>,
    others: &[Side<'_>],
    decimals: Decimals,
) -> bool
    ensures { result ≡ list_any (λ other. holds decimals operator (plain_on other) (plain_on side.now)) others.now }
{
    others
        .iter()
        .any(|other| holds(operator, other, side, decimals))
}

/// The operators of equality, and those of order, which compare numbers.
fn holds(operator: Operator, left: &Side<'_>, right: &Side<'_>, decimals: Decimals) -> bool
    ensures { result ≡ holds decimals operator (plain_on left.now) (plain_on right.now) }
{
    match operator {
        Operator::Equal => are_equal(left, right, decimals),
        Operator::NotEqual => !are_equal(left, right, decimals),
        Operator::Less => order_in(left, right, decimals) == Some(Ordering::Less),
        Operator::Greater => order_in(left, right, decimals) == Some(Ordering::Greater),
        Operator::LessOrEqual => match order_in(left, right, decimals) {
            Some(Ordering::Less) | Some(Ordering::Equal) => true,
            _ => false,
        },
        Operator::GreaterOrEqual => match order_in(left, right, decimals) {
            Some(Ordering::Greater) | Some(Ordering::Equal) => true,
            _ => false,
        },
        _ => false,
    }
}

/// As truths where one is a truth, else as numbers where one is a number, else as texts.
fn are_equal(left: &Side<'_>, right: &Side<'_>, decimals: Decimals) -> bool
    ensures { result ≡ are_equal decimals (plain_on left.now) (plain_on right.now) }
{
    match (left, right) {
        (Side::Truth(_), _) | (_, Side::Truth(_)) => truth_in(left) == truth_in(right),
        (Side::Number(_), _) | (_, Side::Number(_)) => {
            order_in(left, right, decimals) == Some(Ordering::Equal)
        }
        (Side::Text(one), Side::Text(other)) => one.as_str() == other.as_str(),
    }
}

fn order_in(left: &Side<'_>, right: &Side<'_>, decimals: Decimals) -> Option<Ordering>
    ensures { result ≡ order_in decimals (plain_on left.now) (plain_on right.now) }
{
    number_in(left, decimals).order(number_in(right, decimals))
}

fn truth_in(side: &Side<'_>) -> bool
    ensures { result ≡ truth_in (plain_on side.now) }
{
    match side {
        Side::Text(text) => !text.as_str().is_empty(),
        Side::Number(number) => is_not_zero(*number),
        Side::Truth(truth) => *truth,
    }
}

fn number_in(side: &Side<'_>, decimals: Decimals) -> Num
    ensures { result ≡ number_in decimals (plain_on side.now) }
{
    match side {
        Side::Text(text) => Num::read(text.as_str(), decimals),
        Side::Number(number) => *number,
        Side::Truth(truth) => number_of_truth(*truth, decimals),
    }
}
