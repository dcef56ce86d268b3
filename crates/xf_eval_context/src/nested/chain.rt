//! The nodes of a bind (XForms 1.1, sections 3.3.4 and 7.2).

ghost use Rattle.std.specs.Prelude.{◌≡◌, ◌<◌, [], Some, map, slice_get, IfOk, IfSome};
ghost use Rattle.xf_base.specs.Limits.{string_limit};
ghost use Rattle.xf_def_forest.specs.Visit.{visits};
ghost use Rattle.xf_def_values.specs.Bounded.{GivesBounded};
ghost use Rattle.xf_funcs.specs.Called.{called};
ghost use Rattle.xf_def_xpath.specs.Reads.{trace};
ghost use Rattle.xf_def_model.specs.Rules.{model_or, rule_of, scope_of};
ghost use Rattle.xf_def_model.specs.Nested.{begun, nested};
ghost use Rattle.xf_eval.specs.Live.{AllLive, AroundStands};
ghost use Rattle.xf_eval_context.specs.Nested.Chain.{outer_in, scope_in, selected, through};

use crate::nested::bound::bound_nodes;
use std::alloc::{AllocError, Global};
use xf_def_forest::NodeList;
use xf_def_syntax::{Bind, Expr, Tables};
use xf_eval::{Around, Context, EvalFault, Value, append, nodes_in, single, value_at};
use xf_tree::Forest;

/// The nodes of a bind, in document order, each once: its node set is evaluated once for each node of the bind around it, and that of an
/// outermost one for the document element of its model's first instance.
pub fn nested<A: Around>(
    alloc: Global,
    forest: &Forest,
    tables: &Tables,
    bind: u32,
    around: &A,
) -> Result<NodeList, EvalFault>
    requires { AroundStands (A.given around.now) forest.now.forest.nodes }
    ensures value { GivesBounded EvalFault.Memory EvalFault.Long (λ found. found) result (nested (Some string_limit) (scope_of called (A.given around.now) tables.now 0) (visits forest.now.forest.nodes) bind) }
    ensures live { IfOk result (λ found. AllLive found forest.now.forest.nodes) }
{
    let binds = tables.binds.as_slice();
    through(alloc, forest, around, binds, model_of(binds, bind), bind)
}

/// The model of a bind.
fn model_of(binds: &[Bind], bind: u32) -> u32
    ensures { result ≡ model_or 0 (slice_get (map rule_of binds.now) bind) }
{
    match binds.get(bind as usize) {
        Some(bind) => bind.model,
        None => 0,
    }
}

/// The nodes of a bind, with the expressions of a model.
fn through<A: Around>(
    alloc: Global,
    forest: &Forest,
    around: &A,
    binds: &[Bind],
    model: u32,
    bind: u32,
) -> Result<NodeList, EvalFault>
    requires { AroundStands (A.given around.now) forest.now.forest.nodes }
    ensures value { GivesBounded EvalFault.Memory EvalFault.Long (λ found. found) result (through (A.given around.now) binds.now model (visits forest.now.forest.nodes) bind) }
    ensures live { IfOk result (λ found. AllLive found forest.now.forest.nodes) }
{
    let Some(here) = binds.get(bind as usize) else {
        return Ok(document(alloc, forest, around, model)?);
    };
    let from = match outer_of(here, bind) {
        Some(outer) => through(alloc, forest, around, binds, model, outer)?,
        None => document(alloc, forest, around, model)?,
    };
    selected(alloc, forest, around, &here.node_set, model, &from)
}

/// The bind around a bind of this number: it stands before it.
fn outer_of(bind: &Bind, number: u32) -> Option<u32>
    ensures value { result ≡ outer_in bind.now.around number }
    ensures before { IfSome result (λ outer. outer < number) }
{
    match bind.around {
        Some(outer) => { if outer < number { Some(outer) } else { None } }
        None => None,
    }
}

/// The document element of a model's first instance, alone, or none.
fn document<A: Around>(
    alloc: Global,
    forest: &Forest,
    around: &A,
    model: u32,
) -> Result<NodeList, AllocError>
    requires { AroundStands (A.given around.now) forest.now.forest.nodes }
    ensures value { IfOk result (λ found. found ≡ begun (scope_in (A.given around.now) [] model)) }
    ensures live { IfOk result (λ found. AllLive found forest.now.forest.nodes) }
{
    match around.instance(model, "") {
        Some(node) => single(alloc, node),
        None => Ok(NodeList::new(alloc)),
    }
}

/// What a node set selects from each of these nodes, in document order, each once.
fn selected<A: Around>(
    alloc: Global,
    forest: &Forest,
    around: &A,
    node_set: &Expr,
    model: u32,
    from: &NodeList,
) -> Result<NodeList, EvalFault>
    requires around { AroundStands (A.given around.now) forest.now.forest.nodes }
    requires from { AllLive from.now forest.now.forest.nodes }
    ensures value { GivesBounded EvalFault.Memory EvalFault.Long (λ found. found) result (selected (scope_in (A.given around.now) [] model) (visits forest.now.forest.nodes) (trace node_set.now) from.now) }
    ensures live { IfOk result (λ found. AllLive found forest.now.forest.nodes) }
{
    let mut found = NodeList::new(alloc);
    for node in from.as_slice() {
        let context = Context {
            model,
            node: *node,
            position: 1,
            size: 1,
            current: *node,
        };
        let nodes = nodes_in(alloc, value_at(alloc, forest, around, node_set, &context)?);
        let set = bound_nodes(alloc, forest, &nodes)?;
        append(&mut found, &set)?;
    }
    Ok(forest.in_order(&found)?)
}
