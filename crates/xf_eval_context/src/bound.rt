//! What bindings select (XForms 1.1, sections 3.2.3 and 3.2.4), and the text of what they select.

ghost use Rattle.std.specs.Prelude.{◌≡◌, IfOk, None, Some, option_map};
ghost use Rattle.xf_def_values.specs.Bounded.{GivesBounded};
ghost use Rattle.xf_def_forest.specs.Forest.{IsLive};
ghost use Rattle.xf_def_forest.specs.Visit.{first_of, visits};
ghost use Rattle.xf_def_xpath.specs.Meaning.{meaning};
ghost use Rattle.xf_eval.specs.Live.{AllLive};
ghost use Rattle.xf_eval_context.specs.Nested.StandIns.{stand_ins_of};
ghost use Rattle.xf_def_ui.specs.Around.{all_bound, alone, first_bound, first_stand, selected_by};
ghost use Rattle.xf_def_ui.specs.Elements.{element_at};
ghost use Rattle.xf_def_ui.specs.Focused.{focus_of};
ghost use Rattle.xf_def_ui.specs.Interface.{interface_of};
ghost use Rattle.xf_def_ui.specs.Labels as labels;
ghost use Rattle.xf_form_elements.specs.Bound.{seen_bound};
ghost use Rattle.xf_eval_context.specs.Over.{around_over, string_in, text_or};

use crate::around::{Surroundings, documents, first_child};
use crate::indexes::Index;
use crate::nested::{bound_nodes, nested};
use crate::over::{Over, is_live, value};
use xf_base::limits::STRING_LIMIT;
use xf_def_forest::{Kind, NodeId, NodeList};
use xf_def_syntax::{Expr, Form};
use xf_def_ui::{Focus, Property};
use xf_eval::{EvalFault, nodes_in};
use xf_form_elements::{Bound, binding_of, element_in};
use xf_name::Word;
use xf_tree::Forest;

/// What an element binds.
pub fn binding_at(form: &Form, element: u32) -> Bound<'_>
    ensures { seen_bound result ≡ (element_at (interface_of form.now) element).binding }
{
    match element_in(form, element) {
        Some(here) => binding_of(&form.tables, here),
        None => Bound::Unbound,
    }
}

/// A node alone as the context.
pub fn alone(node: NodeId) -> Focus
    ensures { focus_of result ≡ alone node.number }
{
    Focus {
        node,
        position: 1,
        size: 1,
    }
}

// ---- the first node

/// The first node that a binding selects, and then what stands for it.
pub fn first_bound(
    over: &Over<'_>,
    model: u32,
    binding: Bound<'_>,
    focus: &Focus,
) -> Result<Option<NodeId>, EvalFault>
    ensures { GivesBounded EvalFault.Memory EvalFault.Long (option_map (λ n. n.number)) result (first_bound (around_over over.now) model (seen_bound binding.entry) (Some (focus_of focus.now))) }
{
    match binding {
        Bound::Unbound => Ok(None),
        Bound::Nodes(expr) => first_selected(over, model, expr, focus),
        Bound::ByBind(bind) => {
            let nodes = nodes_of_bind(over, bind)?;
            Ok(nodes.get(0))
        }
    }
}

/// The first node that an expression selects, and then what stands for it.
pub fn first_selected(
    over: &Over<'_>,
    model: u32,
    expr: &Expr,
    focus: &Focus,
) -> Result<Option<NodeId>, EvalFault>
    ensures { GivesBounded EvalFault.Memory EvalFault.Long (option_map (λ n. n.number)) result (option_map (first_stand (around_over over.now)) (selected_by (around_over over.now) model (focus_of focus.now) (meaning expr.now))) }
{
    let value = value(over, model, focus, expr)?;
    let nodes = nodes_in(over.alloc, value);
    match nodes.get(0) {
        Some(node) => Ok(stands_for(over.forest, node)),
        None => Ok(None),
    }
}

/// A text stands for its parent, and a root for its document element.
fn stands_for(forest: &Forest, node: NodeId) -> Option<NodeId>
    requires { IsLive node.number forest.now.forest }
    ensures { option_map (λ n. n.number) result ≡ first_of (stand_ins_of (visits forest.now.forest.nodes) node.number) }
{
    match forest.kind(node) {
        Kind::Root => first_child(forest, node),
        Kind::Text => forest.parent(node),
        Kind::Element | Kind::Attribute => Some(node),
    }
}

// ---- all nodes

/// All nodes that a binding selects, each by what stands for it.
pub fn all_bound(
    over: &Over<'_>,
    model: u32,
    binding: Bound<'_>,
    focus: &Focus,
) -> Result<NodeList, EvalFault>
    ensures { GivesBounded EvalFault.Memory EvalFault.Long (λ ns. ns) result (all_bound (around_over over.now) model (seen_bound binding.entry) (Some (focus_of focus.now))) }
{
    match binding {
        Bound::Unbound => Ok(NodeList::new(over.alloc)),
        Bound::Nodes(expr) => {
            let value = value(over, model, focus, expr)?;
            let nodes = nodes_in(over.alloc, value);
            Ok(bound_nodes(over.alloc, over.forest, &nodes)?)
        }
        Bound::ByBind(bind) => nodes_of_bind(over, bind),
    }
}

/// The nodes of a bind, which sees no indexes and no event.
fn nodes_of_bind(over: &Over<'_>, bind: u32) -> Result<NodeList, EvalFault>
    ensures value { GivesBounded EvalFault.Memory EvalFault.Long (λ ns. ns) result ((around_over over.now).bound bind) }
    ensures live { IfOk result (λ ns. AllLive ns over.now.forest.now.forest.nodes) }
{
    let forest = over.forest;
    let instances = over.form.tables.instances.as_slice();
    let documents = documents(over.alloc, instances, forest)?;
    let around = Surroundings {
        form: over.form,
        prefixes: over.prefixes,
        documents: documents.as_slice(),
        indexes: without_rows(over),
        told: outside(over),
    };
    nested(over.alloc, forest, &over.form.tables, bind, &around)
}

/// Outside an event nothing is told.
fn outside<'a>(over: &Over<'a>) -> Option<&'a [Property]>
    ensures { result ≡ None }
{
    let _ = over;
    None
}

/// Nor are there indexes.
fn without_rows<'a>(over: &Over<'a>) -> Option<&'a [Index]>
    ensures { result ≡ None }
{
    let _ = over;
    None
}

// ---- texts

/// The text of the node that a binding selects, empty where it selects none.
pub fn bound_text(
    over: &Over<'_>,
    model: u32,
    binding: Bound<'_>,
    focus: &Focus,
) -> Result<Word, EvalFault>
    ensures { GivesBounded EvalFault.Memory EvalFault.Long (λ w. w) result (labels.bound_text (around_over over.now) (record { model = model; focus = Some (focus_of focus.now) }) (seen_bound binding.entry)) }
{
    let node = first_bound(over, model, binding, focus)?;
    text_of_first(over, model, node)
}

/// The text of the node that a binding selects, and of an element that has none this text.
pub fn text_or(
    over: &Over<'_>,
    model: u32,
    binding: Bound<'_>,
    focus: &Focus,
    resource: &str,
) -> Result<Word, EvalFault>
    ensures { GivesBounded EvalFault.Memory EvalFault.Long (λ w. w) result (text_or (around_over over.now) (record { model = model; focus = Some (focus_of focus.now) }) resource.now (seen_bound binding.entry)) }
{
    match binding {
        Bound::Unbound => Ok(Word::from_str(over.alloc, resource)?),
        _ => bound_text(over, model, binding, focus),
    }
}

fn text_of_first(over: &Over<'_>, model: u32, node: Option<NodeId>) -> Result<Word, EvalFault>
    ensures { GivesBounded EvalFault.Memory EvalFault.Long (λ w. w) result (labels.text_of_first (around_over over.now) model (option_map (λ n. n.number) node)) }
{
    match node {
        Some(node) => string_at(over, node),
        None => Ok(Word::new(over.alloc)),
    }
}

/// The string value of a node.
fn string_at(over: &Over<'_>, node: NodeId) -> Result<Word, EvalFault>
    ensures { GivesBounded EvalFault.Memory EvalFault.Long (λ w. w) result (string_in over.now.forest.now.forest.nodes node.number) }
{
    if !is_live(over.forest, node) {
        // What a binding selects stands in the forest.
        return Err(EvalFault::Memory);
    }
    match over.forest.string_value(node, STRING_LIMIT)? {
        Some(text) => Ok(text),
        None => Err(EvalFault::Long),
    }
}
