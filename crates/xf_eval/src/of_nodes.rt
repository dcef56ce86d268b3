//! Functions of nodes (XPath 1.0, sections 4.1 and 4.4; XForms 1.1, section 7.7).

ghost use Rattle.std.specs.Prelude.{◌≡◌, length, map, filter, option_and_then, option_map, Some};
ghost use Rattle.xf_base.specs.Limits.{string_limit};
ghost use Rattle.xf_def_forest.specs.Forest.{name_in, written};
ghost use Rattle.xf_def_values.specs.Bounded.{GivesBounded, capped};
ghost use Rattle.xf_def_values.specs.Conversions.{whole};
ghost use Rattle.xf_def_xpath.specs.Conversions.{is_filled, nodes_of, strings_of};
ghost use Rattle.xf_def_xpath.specs.Functions.{average, total, extreme};
ghost use Rattle.xf_def_xpath.specs.Setting.{each};
ghost use Rattle.xf_eval.specs.Live.{AllLive};
ghost use Rattle.xf_eval.specs.OfNodes.{better, name_worth, set_worth};
ghost use Rattle.xf_eval.specs.Texts.{combined, folded, number_at};
ghost use Rattle.xf_eval.specs.Worth.{bare_setting, setting_in};
ghost use Rattle.xf_tree_contents.specs.Seen.{seen_content};

use crate::around::Around;
use crate::convert::{kept_text, whole};
use crate::kinds::Kind;
use crate::texts::{number_of_node, value_of_node};
use std::alloc::Global;
use std::cmp::Ordering;
use xf_def_forest::{Name, NodeId, NodeList};
use xf_def_xpath::{EvalFault, Value};
use xf_name::Word;
use xf_num::{Decimals, Num};
use xf_tree::{Forest, Seen};

/// What a function makes of these nodes.
pub(crate) fn of_nodes(
    alloc: Global,
    forest: &Forest,
    kind: Kind,
    nodes: &NodeList,
    decimals: Decimals,
) -> Result<Value, EvalFault>
    requires { AllLive nodes.now forest.now.forest.nodes }
    ensures { GivesBounded EvalFault.Memory EvalFault.Long (λ value. value) result (set_worth kind (setting_in decimals forest.now.forest.nodes) nodes.now) }
{
    match kind {
        Kind::CountingFilled => Ok(Value::Number(filled_count(alloc, forest, nodes, decimals)?)),
        Kind::Adding => Ok(Value::Number(total(alloc, forest, nodes, decimals)?)),
        Kind::Averaging => Ok(Value::Number(average(alloc, forest, nodes, decimals)?)),
        Kind::Greatest => Ok(Value::Number(extreme(alloc, forest, kind, nodes, decimals)?)),
        Kind::Least => Ok(Value::Number(extreme(alloc, forest, kind, nodes, decimals)?)),
        _ => Ok(Value::Number(whole(nodes.len(), decimals))),
    }
}

/// How many of the nodes have a string value that is not empty.
fn filled_count(
    alloc: Global,
    forest: &Forest,
    nodes: &NodeList,
    decimals: Decimals,
) -> Result<Num, EvalFault>
    requires { AllLive nodes.now forest.now.forest.nodes }
    ensures { GivesBounded EvalFault.Memory EvalFault.Long (λ count. count) result (option_map (λ texts. whole decimals (length (filter is_filled texts))) (strings_of (bare_setting forest.now.forest.nodes) nodes.now)) }
{
    let mut count: usize = 0;
    for node in nodes.as_slice() {
        if !value_of_node(alloc, forest, *node)?.as_str().is_empty() {
            count += 1;
        }
    }
    Ok(whole(count, decimals))
}

/// The sum of the numbers of the nodes.
fn total(
    alloc: Global,
    forest: &Forest,
    nodes: &NodeList,
    decimals: Decimals,
) -> Result<Num, EvalFault>
    requires { AllLive nodes.now forest.now.forest.nodes }
    ensures { GivesBounded EvalFault.Memory EvalFault.Long (λ sum. sum) result (option_map total (each (number_at decimals forest.now.forest.nodes) nodes.now)) }
{
    folded(
        alloc,
        forest,
        Kind::Adding,
        Num::of_units(0),
        nodes.as_slice(),
        decimals,
    )
}

/// Their sum, divided by how many they are.
fn average(
    alloc: Global,
    forest: &Forest,
    nodes: &NodeList,
    decimals: Decimals,
) -> Result<Num, EvalFault>
    requires { AllLive nodes.now forest.now.forest.nodes }
    ensures { GivesBounded EvalFault.Memory EvalFault.Long (λ average. average) result (option_map (average decimals) (each (number_at decimals forest.now.forest.nodes) nodes.now)) }
{
    let sum = total(alloc, forest, nodes, decimals)?;
    Ok(sum.div(whole(nodes.len(), decimals), decimals))
}

/// The greatest of their numbers, or the least; NaN where there is none, or one of them is NaN.
fn extreme(
    alloc: Global,
    forest: &Forest,
    kind: Kind,
    nodes: &NodeList,
    decimals: Decimals,
) -> Result<Num, EvalFault>
    requires { AllLive nodes.now forest.now.forest.nodes }
    ensures { GivesBounded EvalFault.Memory EvalFault.Long (λ best. best) result (option_map (extreme (combined kind)) (each (number_at decimals forest.now.forest.nodes) nodes.now)) }
{
    let Some((first, rest)) = nodes.as_slice().split_first() else {
        return Ok(Num::nan());
    };
    let best = number_of_node(alloc, forest, *first, decimals)?;
    folded(alloc, forest, kind, best, rest, decimals)
}

/// What a function makes of a first number and of those of these nodes, from left to right.
fn folded(
    alloc: Global,
    forest: &Forest,
    kind: Kind,
    first: Num,
    nodes: &[NodeId],
    decimals: Decimals,
) -> Result<Num, EvalFault>
    requires { AllLive (map (λ n. n.number) nodes.now) forest.now.forest.nodes }
    ensures { GivesBounded EvalFault.Memory EvalFault.Long (λ number. number) result (folded decimals kind forest.now.forest.nodes first (map (λ n. n.number) nodes.now)) }
{
    let mut number = first;
    for node in nodes {
        let next = number_of_node(alloc, forest, *node, decimals)?;
        number = combined(kind, number, next);
    }
    Ok(number)
}

fn combined(kind: Kind, one: Num, other: Num) -> Num
    ensures { result ≡ combined kind one other }
{
    match kind {
        Kind::Greatest => better(true, one, other),
        Kind::Least => better(false, one, other),
        _ => one.add(other),
    }
}

/// The greater of two numbers, or the lesser; NaN where one of them is NaN.
fn better(greatest: bool, one: Num, other: Num) -> Num
    ensures { result ≡ better greatest one other }
{
    match one.order(other) {
        Some(Ordering::Greater) => { if greatest { one } else { other } }
        Some(Ordering::Less) => { if greatest { other } else { one } }
        Some(Ordering::Equal) => other,
        None => Num::nan(),
    }
}

/// A part of the name of the first node, empty where it has none.
pub(crate) fn name_of<A: Around>(
    alloc: Global,
    forest: &Forest,
    around: &A,
    kind: Kind,
    nodes: &NodeList,
) -> Result<Value, EvalFault>
    ensures { GivesBounded EvalFault.Memory EvalFault.Long (λ value. value) result (name_worth kind (A.given around.now).bindings forest.now.forest.nodes nodes.now) }
{
    let content = match nodes.get(0) {
        Some(node) => forest.content(node),
        None => None,
    };
    let Some(name) = content.and_then(name_in) else {
        return Ok(Value::Text(Word::new(alloc)));
    };
    match kind {
        Kind::LocalName => Ok(Value::Text(kept_text(alloc, name.meaning.local.as_str())?)),
        Kind::Name => Ok(Value::Text(written(alloc, name)?)),
        _ => match around.prefixes().space_text(name.meaning.space) {
            Some(text) => Ok(Value::Text(kept_text(alloc, text)?)),
            None => Ok(Value::Text(Word::new(alloc))),
        },
    }
}

fn name_in(content: Seen<'_>) -> Option<&Name>
    ensures { option_map (λ name. name.now) result ≡ name_in (seen_content content.entry) }
{
    match content {
        Seen::Element(name) | Seen::Attribute(name, _) => Some(name),
        _ => None,
    }
}

/// A name as it is written.
fn written(alloc: Global, name: &Name) -> Result<Word, EvalFault>
    ensures { GivesBounded EvalFault.Memory EvalFault.Long (λ text. text) result (capped (Some string_limit) (written name.now)) }
{
    if name.prefix.is_empty() {
        return kept_text(alloc, name.meaning.local.as_str());
    }
    let mut text = Word::from_str(alloc, name.prefix.as_str())?;
    text.push_str(":")?;
    text.push_str(name.meaning.local.as_str())?;
    kept_text(alloc, text.as_str())
}
