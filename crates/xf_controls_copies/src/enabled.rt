//! Whether a copy is enabled (XForms 1.1, sections 4.3.4, 9.2 and 9.3): it and all containers around it bind nothing or a relevant node, and no
//! case around it is unselected.

ghost use Rattle.std.specs.Prelude.{◌≡◌, ◌&&◌, map, option_map};
ghost use Rattle.xf_def_values.specs.Bounded.{GivesBounded};
ghost use Rattle.xf_def_ui.specs.Copies as copies;
ghost use Rattle.xf_def_ui.specs.Elements.{above, element_at, is_container};
ghost use Rattle.xf_def_ui.specs.Interface.{interface_of};
ghost use Rattle.xf_form_elements.specs.Bound.{seen_bound};
ghost use Rattle.xf_eval_context.specs.Over.{around_over};
ghost use Rattle.xf_controls.specs.Seen.{number};
ghost use Rattle.xf_controls_copies.specs.Made as made;

use crate::copy::{node_in, own_binding};
use crate::made::State;
use xf_def_forest::NodeId;
use xf_def_syntax::{Control, Form, Kind};
use xf_def_ui::NodeMarks;
use xf_eval::EvalFault;
use xf_eval_context::context_under;
use xf_form_elements::switch::is_in_selected;
use xf_form_elements::{Bound, element_in, parent_of};

/// Whether the copy of an element under a chain of rows is enabled.
pub(crate) fn is_enabled<M: NodeMarks>(
    state: &State<'_, M>,
    rows: &[NodeId],
    element: u32,
) -> Result<bool, EvalFault>
    ensures { GivesBounded EvalFault.Memory EvalFault.Long (λ b. b) result (copies.is_enabled (interface_of state.now.over.form.now) (around_over state.now.over) (M.marks_of state.now.marks.now) state.now.cases.now (map number rows.now) element) }
{
    let form = state.over.form;
    let own = is_open(state, rows, element)?;
    let around = are_open(state, rows, form.elements.len(), parent_of(form, element))?;
    let all = both(own, around);
    Ok(both(all, is_in_selected(form, state.cases, element)))
}

/// Whether an element and those around it, of which there are at most so many, are no containers or open.
fn are_open<M: NodeMarks>(
    state: &State<'_, M>,
    rows: &[NodeId],
    most: usize,
    parent: Option<u32>,
) -> Result<bool, EvalFault>
    ensures { GivesBounded EvalFault.Memory EvalFault.Long (λ b. b) result (made.are_open (interface_of state.now.over.form.now) (around_over state.now.over) (M.marks_of state.now.marks.now) (map number rows.now) (above most (interface_of state.now.over.form.now) parent)) }
{
    if most == 0 {
        return Ok(true);
    }
    let Some(element) = parent else {
        return Ok(true);
    };
    let own = is_passable(state, rows, element)?;
    let outer = are_open(state, rows, most - 1, parent_of(state.over.form, element))?;
    Ok(both(own, outer))
}

/// Whether an element is no container, or an open one.
fn is_passable<M: NodeMarks>(
    state: &State<'_, M>,
    rows: &[NodeId],
    element: u32,
) -> Result<bool, EvalFault>
    ensures { GivesBounded EvalFault.Memory EvalFault.Long (λ b. b) result (made.is_passable (interface_of state.now.over.form.now) (around_over state.now.over) (M.marks_of state.now.marks.now) (map number rows.now) element) }
{
    if !is_container(state.over.form, element) {
        return Ok(true);
    }
    is_open(state, rows, element)
}

/// Whether an element binds nothing or a relevant node, under a chain of rows.
fn is_open<M: NodeMarks>(
    state: &State<'_, M>,
    rows: &[NodeId],
    element: u32,
) -> Result<bool, EvalFault>
    ensures { GivesBounded EvalFault.Memory EvalFault.Long (λ b. b) result (copies.is_open (interface_of state.now.over.form.now) (around_over state.now.over) (M.marks_of state.now.marks.now) (map number rows.now) element) }
{
    let situation = context_under(&state.over, rows, element)?;
    let node = node_in(&state.over, &situation, element)?;
    Ok(is_open_by(state.marks, own_binding(state.over.form, element), node))
}

pub(crate) fn is_open_by<M: NodeMarks>(marks: &M, binding: Bound<'_>, node: Option<NodeId>) -> bool
    ensures { result ≡ copies.is_open_by (M.marks_of marks.now) (seen_bound binding.entry) (option_map number node) }
{
    match binding {
        Bound::Unbound => true,
        _ => match node {
            Some(node) => marks.marks(node).relevant,
            None => false,
        },
    }
}

pub(crate) fn both(one: bool, other: bool) -> bool
    ensures { result ≡ (one && other) }
{
    if one { other } else { false }
}

pub(crate) fn is_container(form: &Form, element: u32) -> bool
    ensures { result ≡ is_container (element_at (interface_of form.now) element).sort }
{
    match element_in(form, element) {
        Some(here) => match &here.kind {
            Kind::Control(_, control) => match control {
                Control::Group | Control::Switch(_) | Control::Case(_) | Control::Repeat(_, _) =>
                    true,
                _ => false,
            },
            _ => false,
        },
        None => false,
    }
}
