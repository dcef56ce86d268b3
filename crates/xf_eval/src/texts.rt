//! String values of nodes: lent where they stand in the forest as one text, else made (XPath 1.0, section 5).

ghost use Rattle.std.specs.Prelude.{◌≡◌, Some};
ghost use Rattle.xf_base.specs.Limits.{string_limit};
ghost use Rattle.xf_def_forest.specs.Forest.{IsLive};
ghost use Rattle.xf_def_values.specs.Bounded.{GivesBounded, capped};
ghost use Rattle.xf_def_xpath.specs.Conversions.{first_string, string_of_node};
ghost use Rattle.xf_eval.specs.Live.{AllLive};
ghost use Rattle.xf_eval.specs.Worth.{bare_setting};
ghost use Rattle.xf_eval.specs.Texts.{characters, number_at};

use std::alloc::Global;
use xf_base::limits::STRING_LIMIT;
use xf_def_forest::{NodeId, NodeList};
use xf_def_xpath::EvalFault;
use xf_name::Word;
use xf_num::{Decimals, Num};
use xf_tree::Forest;

/// A string value.
#[derive(Drop)]
pub(crate) enum StringValue<'a> {
    /// As the forest has it.
    Lent(&'a str),
    Made(Word),
}

impl<'a> StringValue<'a> {
    pub(crate) fn as_str(&self) -> &str
        ensures { result.now ≡ characters self.now }
    {
        match self {
            StringValue::Lent(text) => text,
            StringValue::Made(text) => text.as_str(),
        }
    }
}

/// The string value of a node; `Long` exactly where it has more than 4 MiB.
pub(crate) fn value_of_node<'a>(
    alloc: Global,
    forest: &'a Forest,
    node: NodeId,
) -> Result<StringValue<'a>, EvalFault>
    requires { IsLive node.number forest.now.forest }
    ensures { GivesBounded EvalFault.Memory EvalFault.Long characters result (string_of_node (bare_setting forest.now.forest.nodes) node.number) }
{
    match forest.whole_value(node) {
        Some(text) => lent(text),
        None => match forest.string_value(node, STRING_LIMIT)? {
            Some(text) => Ok(StringValue::Made(text)),
            None => Err(EvalFault::Long),
        },
    }
}

/// A text of the forest that keeps the limit.
pub(crate) fn lent(text: &str) -> Result<StringValue<'_>, EvalFault>
    ensures { GivesBounded EvalFault.Memory EvalFault.Long characters result (capped (Some string_limit) text.now) }
{
    if text.len() > STRING_LIMIT as usize {
        return Err(EvalFault::Long);
    }
    Ok(StringValue::Lent(text))
}

/// The string value of the first node, empty where there is none.
pub(crate) fn first_value<'a>(
    alloc: Global,
    forest: &'a Forest,
    nodes: &NodeList,
) -> Result<StringValue<'a>, EvalFault>
    requires { AllLive nodes.now forest.now.forest.nodes }
    ensures { GivesBounded EvalFault.Memory EvalFault.Long characters result (first_string (bare_setting forest.now.forest.nodes) nodes.now) }
{
    match nodes.get(0) {
        Some(node) => value_of_node(alloc, forest, node),
        None => Ok(StringValue::Lent("")),
    }
}

/// The number that the string value of a node is (XPath 1.0, section 4.4).
pub(crate) fn number_of_node(
    alloc: Global,
    forest: &Forest,
    node: NodeId,
    decimals: Decimals,
) -> Result<Num, EvalFault>
    requires { IsLive node.number forest.now.forest }
    ensures { GivesBounded EvalFault.Memory EvalFault.Long (λ number. number) result (number_at decimals forest.now.forest.nodes node.number) }
{
    let value = value_of_node(alloc, forest, node)?;
    Ok(Num::read(value.as_str(), decimals))
}
