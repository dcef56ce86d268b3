//! Function calls (XPath 1.0, section 4; XForms 1.1, section 7).

ghost use Rattle.std.specs.Prelude.{◌≡◌, [], IfOk, map, option_map};
ghost use Rattle.xf_def_values.specs.Bounded.{GivesBounded};
ghost use Rattle.xf_funcs.specs.Called.{called};
ghost use Rattle.xf_def_xpath.specs.Conversions.{nodes_of, value_of_plain};
ghost use Rattle.xf_def_xpath.specs.Binding.{as_list};
ghost use Rattle.xf_def_xpath.specs.Functions.{branched, plain_arguments};
ghost use Rattle.xf_def_xpath.specs.Meaning.{focus_of, meaning, setting_of};
ghost use Rattle.xf_eval.specs.Live.{AllLive, AroundStands, IsReady};
ghost use Rattle.xf_eval.specs.OfOne.{one_worth, own_worth, plain_worth};
ghost use Rattle.xf_eval.specs.ByKind.{argument_or, by_kind};
ghost use Rattle.xf_eval.specs.First.{counted};

use crate::around::Around;
use crate::convert::{number_of, place_in, plain_of, text_of, truth_of, whole};
use crate::first::{asked_at, takes_plain};
use crate::kinds::Kind;
use crate::of_nodes::{name_of, of_nodes};
use crate::sets::{copied, listed, nodes_in, single};
use std::alloc::Global;
use xf_def_forest::{NodeId, NodeList};
use xf_def_syntax::Expr;
use xf_def_values::Plain;
use xf_def_xpath::{Context, EvalFault, Value};
use xf_funcs::{FuncFault, call};
use xf_num::{Decimals, Num};
use xf_tree::Forest;

/// The value of a call of a function of this kind.
#[cycle(value)]
pub(crate) fn call_value<A: Around>(
    alloc: Global,
    forest: &Forest,
    around: &A,
    kind: Kind,
    code: u16,
    arguments: &[Expr],
    context: &Context,
) -> Result<Value, EvalFault>
    requires { IsReady (A.given around.now) forest.now.forest.nodes context.now }
    ensures value { GivesBounded EvalFault.Memory EvalFault.Long (λ value. value) result (by_kind kind code (A.given around.now) forest.now.forest.nodes context.now (map meaning arguments.now)) }
    ensures live { IfOk result (λ value. AllLive (nodes_of value) forest.now.forest.nodes) }
{
    let decimals = around.decimals();
    match kind {
        Kind::Asking | Kind::Plainly => {
            let given = plain_arguments(alloc, forest, around, arguments, context)?;
            called_plainly(alloc, code, given.as_slice(), decimals)
        }
        Kind::Truth(truth) => Ok(Value::Truth(truth)),
        Kind::Current => Ok(Value::Nodes(single(alloc, context.current)?)),
        Kind::Last => Ok(Value::Number(place_in(around, context.size))),
        Kind::Position => Ok(Value::Number(place_in(around, context.position))),
        Kind::Choosing => branched(alloc, forest, around, false, arguments, context),
        Kind::Branching => {
            let value = branched(alloc, forest, around, true, arguments, context)?;
            Ok(Value::Text(text_of(alloc, forest, &value, decimals)?))
        }
        Kind::Owning | Kind::Number | Kind::Text | Kind::LocalName | Kind::Name | Kind::Namespace =>
            {
                let own = Some(context.node);
                let value = argument(alloc, forest, around, true, arguments, 0, own, context)?;
                of_own(alloc, forest, around, kind, code, value, decimals)
            }
        _ => {
            let plain = takes_plain(kind);
            let value = argument(alloc, forest, around, plain, arguments, 0, None, context)?;
            of_one(alloc, forest, around, kind, context.model, value, decimals)
        }
    }
}

/// The argument at a place from 0; where none is written, the set of the node that stands for it, or of none. Where it is to be
/// converted, its first node counts.
#[cycle(value)]
fn argument<A: Around>(
    alloc: Global,
    forest: &Forest,
    around: &A,
    is_converted: bool,
    arguments: &[Expr],
    at: usize,
    own: Option<NodeId>,
    context: &Context,
) -> Result<Value, EvalFault>
    requires ready { IsReady (A.given around.now) forest.now.forest.nodes context.now }
    requires own { AllLive (as_list (option_map (λ n. n.number) own)) forest.now.forest.nodes }
    ensures value { GivesBounded EvalFault.Memory EvalFault.Long (counted is_converted) result (option_map (counted is_converted) (argument_or at (as_list (option_map (λ n. n.number) own)) (map meaning arguments.now) (setting_of called (A.given around.now) forest.now.forest.nodes context.now) (focus_of context.now))) }
    ensures live { IfOk result (λ value. AllLive (nodes_of value) forest.now.forest.nodes) }
{
    match arguments.get(at) {
        Some(argument) => asked_at(alloc, forest, around, is_converted, argument, context),
        None => Ok(Value::Nodes(listed(alloc, own)?)),
    }
}

/// The arguments as plain values.
#[cycle(value)]
fn plain_arguments<A: Around>(
    alloc: Global,
    forest: &Forest,
    around: &A,
    arguments: &[Expr],
    context: &Context,
) -> Result<Vec<Plain>, EvalFault>
    requires { IsReady (A.given around.now) forest.now.forest.nodes context.now }
    ensures { GivesBounded EvalFault.Memory EvalFault.Long (λ given. given.items) result (plain_arguments (map meaning arguments.now) (setting_of called (A.given around.now) forest.now.forest.nodes context.now) (focus_of context.now)) }
{
    let mut given = Vec::new(alloc);
    for argument in arguments {
        let value = asked_at(alloc, forest, around, true, argument, context)?;
        given.push(plain_of(alloc, forest, value)?)?;
    }
    Ok(given)
}

/// The value of the branch that the first argument chooses; the other one is not evaluated. Where it is to be converted, its first node
/// counts.
#[cycle(value)]
fn branched<A: Around>(
    alloc: Global,
    forest: &Forest,
    around: &A,
    is_converted: bool,
    arguments: &[Expr],
    context: &Context,
) -> Result<Value, EvalFault>
    requires { IsReady (A.given around.now) forest.now.forest.nodes context.now }
    ensures value { GivesBounded EvalFault.Memory EvalFault.Long (counted is_converted) result (option_map (counted is_converted) (branched (map meaning arguments.now) (setting_of called (A.given around.now) forest.now.forest.nodes context.now) (focus_of context.now))) }
    ensures live { IfOk result (λ value. AllLive (nodes_of value) forest.now.forest.nodes) }
{
    let condition = argument(alloc, forest, around, true, arguments, 0, None, context)?;
    let at = if truth_of(&condition) { 1 } else { 2 };
    argument(
        alloc,
        forest,
        around,
        is_converted,
        arguments,
        at,
        None,
        context,
    )
}

/// What a function that may stand for the context node makes of its argument.
fn of_own<A: Around>(
    alloc: Global,
    forest: &Forest,
    around: &A,
    kind: Kind,
    code: u16,
    value: Value,
    decimals: Decimals,
) -> Result<Value, EvalFault>
    requires around { AroundStands (A.given around.now) forest.now.forest.nodes }
    requires value { AllLive (nodes_of value) forest.now.forest.nodes }
    ensures value { GivesBounded EvalFault.Memory EvalFault.Long (λ value. value) result (own_worth decimals kind code (A.given around.now) forest.now.forest.nodes value) }
    ensures live { IfOk result (λ value. AllLive (nodes_of value) forest.now.forest.nodes) }
{
    match kind {
        Kind::Number => Ok(Value::Number(number_of(alloc, forest, &value, decimals)?)),
        Kind::Text => Ok(Value::Text(text_of(alloc, forest, &value, decimals)?)),
        Kind::Owning => {
            let given = [plain_of(alloc, forest, value)?];
            called_plainly(alloc, code, &given, decimals)
        }
        kind => name_of(alloc, forest, around, kind, &nodes_in(alloc, value)),
    }
}

/// What a function makes of its one argument.
fn of_one<A: Around>(
    alloc: Global,
    forest: &Forest,
    around: &A,
    kind: Kind,
    model: u32,
    value: Value,
    decimals: Decimals,
) -> Result<Value, EvalFault>
    requires around { AroundStands (A.given around.now) forest.now.forest.nodes }
    requires value { AllLive (nodes_of value) forest.now.forest.nodes }
    ensures value { GivesBounded EvalFault.Memory EvalFault.Long (λ value. value) result (one_worth decimals kind model (A.given around.now) forest.now.forest.nodes value) }
    ensures live { IfOk result (λ value. AllLive (nodes_of value) forest.now.forest.nodes) }
{
    match kind {
        Kind::Boolean => Ok(Value::Truth(truth_of(&value))),
        Kind::Not => Ok(Value::Truth(!truth_of(&value))),
        Kind::Event => {
            let name = text_of(alloc, forest, &value, decimals)?;
            match around.event(name.as_str()) {
                Some(property) => Ok(copied(alloc, property)?),
                None => Ok(Value::Nodes(NodeList::new(alloc))),
            }
        }
        Kind::Index => {
            let id = text_of(alloc, forest, &value, decimals)?;
            match around.index(id.as_str()) {
                Some(index) => Ok(Value::Number(whole(index as usize, decimals))),
                None => Ok(Value::Number(Num::nan())),
            }
        }
        Kind::Instance => {
            let id = text_of(alloc, forest, &value, decimals)?;
            Ok(Value::Nodes(listed(alloc, around.instance(model, id.as_str()))?))
        }
        kind => of_nodes(alloc, forest, kind, &nodes_in(alloc, value), decimals),
    }
}

/// The value of a function on plain values.
fn called_plainly(
    alloc: Global,
    code: u16,
    given: &[Plain],
    decimals: Decimals,
) -> Result<Value, EvalFault>
    ensures value { GivesBounded EvalFault.Memory EvalFault.Long (λ value. value) result (plain_worth decimals code given.now) }
    ensures live { IfOk result (λ value. nodes_of value ≡ []) }
{
    match call(alloc, code, given, decimals) {
        Ok(plain) => Ok(value_of(plain)),
        Err(FuncFault::Long) => Err(EvalFault::Long),
        Err(FuncFault::Memory) => Err(EvalFault::Memory),
    }
}

/// A plain value as one of an expression.
fn value_of(plain: Plain) -> Value
    ensures value { result ≡ value_of_plain plain }
    ensures live { nodes_of result ≡ [] }
{
    match plain {
        Plain::Text(text) => Value::Text(text),
        Plain::Number(number) => Value::Number(number),
        Plain::Truth(truth) => Value::Truth(truth),
    }
}
