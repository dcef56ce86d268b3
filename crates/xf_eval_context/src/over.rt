//! What expressions are evaluated over, and their values.

ghost use Rattle.std.specs.Prelude.{◌≡◌, IfOk, Some, map};
ghost use Rattle.xf_def_values.specs.Bounded.{GivesBounded};
ghost use Rattle.xf_def_forest.specs.Forest.{has_number};
ghost use Rattle.xf_def_xpath.specs.Conversions.{nodes_of};
ghost use Rattle.xf_def_xpath.specs.Meaning.{meaning, text_worth};
ghost use Rattle.xf_def_ui.specs.Around.{setting};
ghost use Rattle.xf_def_ui.specs.Focused.{focus_of};
ghost use Rattle.xf_eval.specs.Live.{AllLive};
ghost use Rattle.xf_eval_context.specs.Around.{are_live, are_told_live, is_event_live};
ghost use Rattle.xf_eval_context.specs.Over.{around_over, truth_worth, whole_of, whole_worth};

use crate::around::{Surroundings, documents};
use crate::indexes::Index;
use std::alloc::Global;
use xf_def_forest::NodeId;
use xf_def_syntax::{Expr, Form};
use xf_def_ui::{Focus, Property};
use xf_eval::{Context, EvalFault, Value, number_of, text_of, truth_of, value_at};
use xf_name::{Prefixes, Word};
use xf_num::{Decimals, Num};
use xf_tree::Forest;

/// What expressions are evaluated over: the form, the namespaces of its prefixes, its data, the indexes of its repeats, if it has rows, and the
/// properties of the event that is handled, if one is.
#[derive(Clone, Copy)]
pub struct Over<'a> {
    pub alloc: Global,
    pub form: &'a Form,
    pub prefixes: &'a Prefixes,
    pub forest: &'a Forest,
    pub indexes: Option<&'a [Index]>,
    pub told: Option<&'a [Property]>,
}

/// The value of an expression. A context node, or a node that the event tells, that is no longer in the forest is told as want of memory: each
/// stands until the event ends.
pub fn value(over: &Over<'_>, model: u32, focus: &Focus, expr: &Expr) -> Result<Value, EvalFault>
    ensures value { GivesBounded EvalFault.Memory EvalFault.Long (λ v. v) result (meaning expr.now (setting (around_over over.now) model focus.now.node.number) (focus_of focus.now)) }
    ensures live { IfOk result (λ v. AllLive (nodes_of v) over.now.forest.now.forest.nodes) }
{
    let forest = over.forest;
    if !is_event_live(forest, over.told) {
        return Err(EvalFault::Memory);
    }
    if !is_live(forest, focus.node) {
        return Err(EvalFault::Memory);
    }
    let instances = over.form.tables.instances.as_slice();
    let documents = documents(over.alloc, instances, forest)?;
    let around = Surroundings {
        form: over.form,
        prefixes: over.prefixes,
        documents: documents.as_slice(),
        indexes: over.indexes,
        told: over.told,
    };
    let context = Context {
        model,
        node: focus.node,
        position: focus.position,
        size: focus.size,
        current: focus.node,
    };
    value_at(over.alloc, forest, &around, expr, &context)
}

fn is_event_live(forest: &Forest, told: Option<&[Property]>) -> bool
    ensures { result ≡ is_event_live forest.now.forest.nodes told.entry }
{
    match told {
        Some(properties) => are_told_live(forest, properties),
        None => true,
    }
}

fn are_told_live(forest: &Forest, properties: &[Property]) -> bool
    ensures { result ≡ are_told_live forest.now.forest.nodes properties.now }
{
    if properties.is_empty() {
        return true;
    }
    if !is_value_live(forest, &properties[0].value) {
        return false;
    }
    are_told_live(forest, &properties[1..])
}

fn is_value_live(forest: &Forest, value: &Value) -> bool
    ensures { result ≡ are_live forest.now.forest.nodes (nodes_of value.now) }
{
    match value {
        Value::Nodes(nodes) => are_live(forest, nodes.as_slice()),
        _ => true,
    }
}

/// Whether all of these nodes stand in the forest.
pub fn are_live(forest: &Forest, nodes: &[NodeId]) -> bool
    ensures { result ≡ are_live forest.now.forest.nodes (map (λ n. n.number) nodes.now) }
{
    if nodes.is_empty() {
        return true;
    }
    if !is_live(forest, nodes[0]) {
        return false;
    }
    are_live(forest, &nodes[1..])
}

/// Whether a node stands in the forest.
pub fn is_live(forest: &Forest, node: NodeId) -> bool
    ensures { result ≡ has_number node.number forest.now.forest.nodes }
{
    forest.is_live(node)
}

/// The value of an expression as a truth.
pub fn truth(over: &Over<'_>, model: u32, focus: &Focus, expr: &Expr) -> Result<bool, EvalFault>
    ensures { GivesBounded EvalFault.Memory EvalFault.Long (λ b. b) result (truth_worth (around_over over.now) model (focus_of focus.now) (meaning expr.now)) }
{
    let value = value(over, model, focus, expr)?;
    Ok(truth_of(&value))
}

/// The value of an expression as a text.
pub fn text(over: &Over<'_>, model: u32, focus: &Focus, expr: &Expr) -> Result<Word, EvalFault>
    ensures { GivesBounded EvalFault.Memory EvalFault.Long (λ w. w) result (text_worth (meaning expr.now) (setting (around_over over.now) model focus.now.node.number) (focus_of focus.now)) }
{
    let value = value(over, model, focus, expr)?;
    text_of(over.alloc, over.forest, &value, over.form.decimals)
}

/// The value of an expression as a whole number: none for NaN.
pub fn whole(
    over: &Over<'_>,
    model: u32,
    focus: &Focus,
    expr: &Expr,
) -> Result<Option<i64>, EvalFault>
    ensures { GivesBounded EvalFault.Memory EvalFault.Long (λ k. k) result (whole_worth (around_over over.now) model (focus_of focus.now) (meaning expr.now)) }
{
    let value = value(over, model, focus, expr)?;
    let decimals = over.form.decimals;
    let number = number_of(over.alloc, over.forest, &value, decimals)?;
    whole_of(number, decimals)
}

#[tactic(auto, unfolding(xf_num::specs::Number::scale))]
fn whole_of(number: Num, decimals: Decimals) -> Result<Option<i64>, EvalFault>
    ensures { GivesBounded EvalFault.Memory EvalFault.Long (λ k. k) result (Some (whole_of decimals number)) }
{
    let one = i128::from(decimals.units_in_one());
    match number.round(decimals).units() {
        Some(units) => match i64::try_from(units.div_euclid(one)) {
            Ok(whole) => Ok(Some(whole)),
            // A number has fewer than 10^18 units.
            Err(_) => Err(EvalFault::Memory),
        },
        None => Ok(None),
    }
}
