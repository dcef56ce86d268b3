//! The conversions of values (XPath 1.0, sections 3.2 and 4): of a set, the string value of the node that is first counts.

ghost use Rattle.std.specs.Prelude.{◌≡◌, Some};
ghost use Rattle.xf_base.specs.Limits.{string_limit};
ghost use Rattle.xf_def_forest.specs.Forest.{IsLive};
ghost use Rattle.xf_def_values.specs.Bounded.{GivesBounded, capped};
ghost use Rattle.xf_def_values.specs.Conversions.{is_not_zero, number_of_truth, text_of_truth, whole};
ghost use Rattle.xf_def_xpath.specs.Conversions.{nodes_of, truth_of, string_of_node, first_string, plain_of};
ghost use Rattle.xf_eval.specs.Live.{AllLive};
ghost use Rattle.xf_eval.specs.Worth.{bare_setting, text_worth, number_worth};

use crate::around::Around;
use crate::texts::first_value;
use std::alloc::Global;
use xf_base::limits::STRING_LIMIT;
use xf_def_forest::{NodeId, NodeList};
use xf_def_values::Plain;
use xf_def_xpath::{EvalFault, Value};
use xf_name::Word;
use xf_num::{Decimals, Num};
use xf_tree::Forest;

/// The value as a truth (XPath 1.0, section 4.3).
pub fn truth_of(value: &Value) -> bool
    ensures { result ≡ truth_of value.now }
{
    match value {
        Value::Nodes(nodes) => !nodes.is_empty(),
        Value::Text(text) => !text.is_empty(),
        Value::Number(number) => is_not_zero(*number),
        Value::Truth(truth) => *truth,
    }
}

/// Whether a number is neither zero nor NaN.
pub(crate) fn is_not_zero(number: Num) -> bool
    ensures { result ≡ is_not_zero number }
{
    match number.units() {
        Some(units) => units != 0,
        None => false,
    }
}

/// The value as a text (XPath 1.0, section 4.2); `Long` exactly where it has more than 4 MiB.
pub fn text_of(
    alloc: Global,
    forest: &Forest,
    value: &Value,
    decimals: Decimals,
) -> Result<Word, EvalFault>
    requires { AllLive (nodes_of value.now) forest.now.forest.nodes }
    ensures { GivesBounded EvalFault.Memory EvalFault.Long (λ text. text) result (text_worth decimals forest.now.forest.nodes value.now) }
{
    match value {
        Value::Nodes(nodes) => first_string(alloc, forest, nodes),
        Value::Text(text) => kept_text(alloc, text.as_str()),
        Value::Number(number) => kept(Word::from_string(number.print(alloc, decimals)?)),
        Value::Truth(truth) => kept_text(alloc, text_of_truth(*truth)),
    }
}

fn text_of_truth(truth: bool) -> &'static str
    ensures { result.now ≡ text_of_truth truth }
{
    if truth { "true" } else { "false" }
}

/// A text that keeps the limit.
fn kept(text: Word) -> Result<Word, EvalFault>
    ensures { GivesBounded EvalFault.Memory EvalFault.Long (λ text. text) result (capped (Some string_limit) text) }
{
    if text.len() > STRING_LIMIT as usize {
        return Err(EvalFault::Long);
    }
    Ok(text)
}

/// A copy of a text that keeps the limit.
pub(crate) fn kept_text(alloc: Global, text: &str) -> Result<Word, EvalFault>
    ensures { GivesBounded EvalFault.Memory EvalFault.Long (λ text. text) result (capped (Some string_limit) text.now) }
{
    if text.len() > STRING_LIMIT as usize {
        return Err(EvalFault::Long);
    }
    Ok(Word::from_str(alloc, text)?)
}

/// The string value of a node.
pub(crate) fn string_of_node(
    alloc: Global,
    forest: &Forest,
    node: NodeId,
) -> Result<Word, EvalFault>
    requires { IsLive node.number forest.now.forest }
    ensures { GivesBounded EvalFault.Memory EvalFault.Long (λ text. text) result (string_of_node (bare_setting forest.now.forest.nodes) node.number) }
{
    match forest.whole_value(node) {
        Some(text) => kept_text(alloc, text),
        None => match forest.string_value(node, STRING_LIMIT)? {
            Some(text) => Ok(text),
            None => Err(EvalFault::Long),
        },
    }
}

/// The string value of the first node, empty where there is none.
fn first_string(alloc: Global, forest: &Forest, nodes: &NodeList) -> Result<Word, EvalFault>
    requires { AllLive nodes.now forest.now.forest.nodes }
    ensures { GivesBounded EvalFault.Memory EvalFault.Long (λ text. text) result (first_string (bare_setting forest.now.forest.nodes) nodes.now) }
{
    match nodes.get(0) {
        Some(node) => string_of_node(alloc, forest, node),
        None => Ok(Word::new(alloc)),
    }
}

/// The value as a number (XPath 1.0, section 4.4); `Long` exactly where a string that is asked has more than 4 MiB.
pub fn number_of(
    alloc: Global,
    forest: &Forest,
    value: &Value,
    decimals: Decimals,
) -> Result<Num, EvalFault>
    requires { AllLive (nodes_of value.now) forest.now.forest.nodes }
    ensures { GivesBounded EvalFault.Memory EvalFault.Long (λ number. number) result (number_worth decimals forest.now.forest.nodes value.now) }
{
    match value {
        Value::Nodes(nodes) => {
            let text = first_value(alloc, forest, nodes)?;
            Ok(Num::read(text.as_str(), decimals))
        }
        Value::Text(text) => Ok(Num::read(text.as_str(), decimals)),
        Value::Number(number) => Ok(*number),
        Value::Truth(truth) => Ok(number_of_truth(*truth, decimals)),
    }
}

pub(crate) fn number_of_truth(truth: bool, decimals: Decimals) -> Num
    ensures { result ≡ number_of_truth decimals truth }
{
    if truth {
        whole(1, decimals)
    } else {
        whole(0, decimals)
    }
}

/// A whole number.
pub(crate) fn whole(count: usize, decimals: Decimals) -> Num
    ensures { result ≡ whole decimals count }
{
    Num::of_units(i128::from(count as u64) * i128::from(decimals.units_in_one()))
}

/// A place among nodes, or how many they are, as a number of the form.
pub(crate) fn place_in<A: Around>(around: &A, place: u32) -> Num
    ensures { result ≡ whole (A.given around.now).decimals place }
{
    whole(place as usize, around.decimals())
}

/// The plain value that stands for a value.
pub(crate) fn plain_of(alloc: Global, forest: &Forest, value: Value) -> Result<Plain, EvalFault>
    requires { AllLive (nodes_of value) forest.now.forest.nodes }
    ensures { GivesBounded EvalFault.Memory EvalFault.Long (λ plain. plain) result (plain_of (bare_setting forest.now.forest.nodes) value) }
{
    match value {
        Value::Nodes(nodes) => Ok(Plain::Text(first_string(alloc, forest, &nodes)?)),
        Value::Text(text) => Ok(Plain::Text(text)),
        Value::Number(number) => Ok(Plain::Number(number)),
        Value::Truth(truth) => Ok(Plain::Truth(truth)),
    }
}
