//! The copy of a control or container under a chain of rows (XForms 1.1, sections 8.1.1 and 9).

ghost use Rattle.std.specs.Prelude.{◌≡◌, map, option_map};
ghost use Rattle.xf_def_values.specs.Bounded.{GivesBounded};
ghost use Rattle.xf_def_ui.specs.Around.{first_bound};
ghost use Rattle.xf_def_ui.specs.Copies as copies;
ghost use Rattle.xf_def_ui.specs.Elements.{element_at};
ghost use Rattle.xf_def_ui.specs.Focused.{focus_of};
ghost use Rattle.xf_def_ui.specs.Interface.{interface_of};
ghost use Rattle.xf_form_elements.specs.Bound.{seen_bound};
ghost use Rattle.xf_eval_context.specs.Inside.{seen_context};
ghost use Rattle.xf_eval_context.specs.Over.{around_over};
ghost use Rattle.xf_controls.specs.Seen.{number, seen_copy};
ghost use Rattle.xf_controls_copies.specs.Made as made;

use crate::enabled::is_enabled;
use crate::made::{State, chain_of};
use crate::value::value_of;
use xf_base::Items;
use xf_controls::ControlCopy;
use xf_def_forest::NodeId;
use xf_def_syntax::{Control, Form, Kind};
use xf_def_ui::{Focus, ItemList, Marks, NodeMarks};
use xf_eval::EvalFault;
use xf_eval_context::{Over, Situation, context_under, first_bound};
use xf_form_elements::{Bound, binding_of, element_in};
use xf_items::items_of;

/// The copy of an element under a chain of rows of the repeats around it, the outermost first.
pub(crate) fn copy_of<M: NodeMarks>(
    state: &State<'_, M>,
    rows: &[NodeId],
    element: u32,
) -> Result<ControlCopy, EvalFault>
    ensures { GivesBounded EvalFault.Memory EvalFault.Long seen_copy result (copies.copy_of (interface_of state.now.over.form.now) (around_over state.now.over) (M.marks_of state.now.marks.now) state.now.cases.now (map number rows.now) element) }
{
    let over = &state.over;
    let situation = context_under(over, rows, element)?;
    let node = node_in(over, &situation, element)?;
    copy_with(state, rows, element, &situation, node)
}

/// The copy of an element that binds a node.
fn copy_with<M: NodeMarks>(
    state: &State<'_, M>,
    rows: &[NodeId],
    element: u32,
    situation: &Situation,
    node: Option<NodeId>,
) -> Result<ControlCopy, EvalFault>
    ensures { GivesBounded EvalFault.Memory EvalFault.Long seen_copy result (made.copy_in (interface_of state.now.over.form.now) (around_over state.now.over) (M.marks_of state.now.marks.now) state.now.cases.now (map number rows.now) element (seen_context situation.now) (option_map number node)) }
{
    let over = &state.over;
    let value = value_of(over, situation, element, node)?;
    let enabled = is_enabled(state, rows, element)?;
    let items = items_at(over, rows, element)?;
    let marks = marks_if(state.marks, node);
    Ok(ControlCopy {
        element,
        rows: chain_of(over.alloc, rows)?,
        node,
        value,
        enabled,
        readwrite: !marks.readonly,
        required: marks.required,
        valid: marks.valid,
        items,
    })
}

/// The node that an element binds, by where it is evaluated.
pub(crate) fn node_in(
    over: &Over<'_>,
    situation: &Situation,
    element: u32,
) -> Result<Option<NodeId>, EvalFault>
    ensures { GivesBounded EvalFault.Memory EvalFault.Long (option_map number) result (made.node_in (interface_of over.now.form.now) (around_over over.now) element (seen_context situation.now)) }
{
    let binding = own_binding(over.form, element);
    first_at(over, situation.model, binding, situation.focus)
}

/// The first node that a binding selects: without a context node none.
fn first_at(
    over: &Over<'_>,
    model: u32,
    binding: Bound<'_>,
    focus: Option<Focus>,
) -> Result<Option<NodeId>, EvalFault>
    ensures { GivesBounded EvalFault.Memory EvalFault.Long (option_map number) result (first_bound (around_over over.now) model (seen_bound binding.entry) (option_map focus_of focus)) }
{
    match focus {
        Some(focus) => first_bound(over, model, binding, &focus),
        None => Ok(None),
    }
}

/// What an element binds by itself: a repeat binds the rows of what stands in it.
pub(crate) fn own_binding(form: &Form, element: u32) -> Bound<'_>
    ensures { seen_bound result ≡ copies.own_binding (element_at (interface_of form.now) element) (element_at (interface_of form.now) element).sort }
{
    match element_in(form, element) {
        Some(here) => match &here.kind {
            Kind::Control(_, Control::Repeat(_, _)) => Bound::Unbound,
            _ => binding_of(&form.tables, here),
        },
        None => Bound::Unbound,
    }
}

/// The properties of a node, and what a copy without a node has.
pub(crate) fn marks_if<M: NodeMarks>(marks: &M, node: Option<NodeId>) -> Marks
    ensures { result ≡ copies.marks_if (M.marks_of marks.now) (option_map number node) }
{
    match node {
        Some(node) => marks.marks(node),
        None => Marks {
            relevant: true,
            readonly: false,
            required: false,
            valid: true,
        },
    }
}

/// The items of a select: other controls have none.
fn items_at(over: &Over<'_>, rows: &[NodeId], element: u32) -> Result<ItemList, EvalFault>
    ensures { GivesBounded EvalFault.Memory EvalFault.Long (λ l. l) result (copies.items_if (interface_of over.now.form.now) (around_over over.now) (map number rows.now) element (element_at (interface_of over.now.form.now) element).sort) }
{
    if is_select(over.form, element) {
        return items_of(over, rows, element);
    }
    Ok(Items::new(over.alloc))
}

pub(crate) fn is_select(form: &Form, element: u32) -> bool
    ensures { result ≡ made.is_select (element_at (interface_of form.now) element).sort }
{
    match element_in(form, element) {
        Some(here) => match &here.kind {
            Kind::Control(_, Control::Select(_)) | Kind::Control(_, Control::SelectOne(_)) => true,
            _ => false,
        },
        None => false,
    }
}
