//! The copies of an element and of those in it, row by row: what surrounds an element is found once and handed down to what stands in it.

ghost use Rattle.std.specs.Prelude.{◌≡◌, true, map, option_map};
ghost use Rattle.xf_def_values.specs.Bounded.{GivesBounded};
ghost use Rattle.xf_def_ui.specs.Elements.{element_at};
ghost use Rattle.xf_def_ui.specs.Interface.{interface_of};
ghost use Rattle.xf_eval_context.specs.Inside.{seen_inside};
ghost use Rattle.xf_eval_context.specs.Over.{around_over};
ghost use Rattle.xf_controls.specs.Below as below;
ghost use Rattle.xf_controls.specs.Seen.{number, seen_copy};
ghost use Rattle.xf_controls_copies.specs.Handed as down;
ghost use Rattle.xf_controls_copies.specs.Made as made;
ghost use Rattle.xf_controls_copies.specs.Seen.{IsFound, seen_handed};
ghost use Rattle.xf_controls_copies.specs.Walk as walk;

use crate::copy::{is_select, marks_if};
use crate::enabled::both;
use crate::handed::{Found, Handed, found_at, handed_by, handed_in, handed_row, inside_of};
use crate::made::{State, chain_of, is_control, is_repeat, with_row};
use crate::value::value_of;
use xf_base::Items;
use xf_controls::{ControlCopy, ControlList, is_passed};
use xf_def_syntax::{Form, Part};
use xf_def_ui::{ItemList, NodeMarks};
use xf_eval::EvalFault;
use xf_eval_context::{Inside, Over, all_at, binding_at, context_in, enter};
use xf_form_elements::{element_in, parts_at};
use xf_items::items_in;

/// Puts the copies of an element and of those in it, of which at most so many are nested, behind others.
#[cycle(walk)]
pub(crate) fn push_below<M: NodeMarks>(
    state: &State<'_, M>,
    most: usize,
    element: u32,
    handed: &Handed<'_>,
    all: &mut ControlList,
) -> Result<(), EvalFault>
    ensures { made.Puts result (map seen_copy all.old) (map seen_copy all.new) (walk.copies_from most (interface_of state.now.over.form.now) (around_over state.now.over) (M.marks_of state.now.marks.now) state.now.cases.now (seen_handed handed.now) element) }
{
    let form = state.over.form;
    if most == 0 {
        return Ok(());
    }
    if is_passed_at(form, most - 1, element) {
        return Ok(());
    }
    if is_control(form, element) {
        return push_control(state, most - 1, element, handed, all);
    }
    push_other(state, most - 1, element, handed, all)
}

/// Puts the copy of a control or container, and of those in it, behind others.
#[cycle(walk)]
fn push_control<M: NodeMarks>(
    state: &State<'_, M>,
    most: usize,
    element: u32,
    handed: &Handed<'_>,
    all: &mut ControlList,
) -> Result<(), EvalFault>
    ensures { made.Puts result (map seen_copy all.old) (map seen_copy all.new) (walk.of_control (walk.copies_from most (interface_of state.now.over.form.now) (around_over state.now.over) (M.marks_of state.now.marks.now) state.now.cases.now) (interface_of state.now.over.form.now) (around_over state.now.over) (M.marks_of state.now.marks.now) state.now.cases.now (seen_handed handed.now) element) }
{
    let found = found_at(state, element, handed)?;
    push_own(state, element, handed, &found, all)?;
    if is_repeat(state.over.form, element) {
        return push_rows(state, most, element, handed, all);
    }
    push_parts(
        state,
        most,
        element,
        &handed_by(state, element, handed, &found),
        all,
    )
}

/// Puts the copies of those in any other element behind others.
#[cycle(walk)]
fn push_other<M: NodeMarks>(
    state: &State<'_, M>,
    most: usize,
    element: u32,
    handed: &Handed<'_>,
    all: &mut ControlList,
) -> Result<(), EvalFault>
    ensures { made.Puts result (map seen_copy all.old) (map seen_copy all.new) (walk.in_other (walk.copies_from most (interface_of state.now.over.form.now) (around_over state.now.over) (M.marks_of state.now.marks.now) state.now.cases.now) (interface_of state.now.over.form.now) (around_over state.now.over) (seen_handed handed.now) element) }
{
    let within = enter(&state.over, &inside_of(handed), element)?;
    push_parts(state, most, element, &handed_in(handed, &within), all)
}

/// Puts the copies of those in a repeat, row by row, behind others.
#[cycle(walk)]
fn push_rows<M: NodeMarks>(
    state: &State<'_, M>,
    most: usize,
    element: u32,
    handed: &Handed<'_>,
    all: &mut ControlList,
) -> Result<(), EvalFault>
    ensures { made.Puts result (map seen_copy all.old) (map seen_copy all.new) (walk.in_rows (walk.copies_from most (interface_of state.now.over.form.now) (around_over state.now.over) (M.marks_of state.now.marks.now) state.now.cases.now) (interface_of state.now.over.form.now) (around_over state.now.over) (seen_handed handed.now) element) }
{
    let over = &state.over;
    let situation = context_in(over, &inside_of(handed), element)?;
    let set = all_at(
        over,
        situation.model,
        binding_at(over.form, element),
        situation.focus,
    )?;
    for node in set.as_slice() {
        let chain = with_row(over.alloc, handed.rows, *node)?;
        let below = handed_row(handed, situation.model, &set, *node, chain.as_slice())?;
        push_parts(state, most, element, &below, all)?;
    }
    Ok(())
}

/// Puts the copies of those in an element behind others.
#[cycle(walk)]
fn push_parts<M: NodeMarks>(
    state: &State<'_, M>,
    most: usize,
    element: u32,
    handed: &Handed<'_>,
    all: &mut ControlList,
) -> Result<(), EvalFault>
    ensures { made.Puts result (map seen_copy all.old) (map seen_copy all.new) (walk.of_children (walk.copies_from most (interface_of state.now.over.form.now) (around_over state.now.over) (M.marks_of state.now.marks.now) state.now.cases.now) (interface_of state.now.over.form.now) (seen_handed handed.now) element) }
{
    for part in parts_at(state.over.form, element) {
        push_part(state, most, part, handed, all)?;
    }
    Ok(())
}

#[cycle(walk)]
fn push_part<M: NodeMarks>(
    state: &State<'_, M>,
    most: usize,
    part: &Part,
    handed: &Handed<'_>,
    all: &mut ControlList,
) -> Result<(), EvalFault>
    ensures { made.Puts result (map seen_copy all.old) (map seen_copy all.new) (made.of_part (walk.copies_from most (interface_of state.now.over.form.now) (around_over state.now.over) (M.marks_of state.now.marks.now) state.now.cases.now (seen_handed handed.now)) part.now) }
{
    match part {
        Part::Text(_) => Ok(()),
        Part::Element(child) => push_below(state, most, *child, handed, all),
    }
}

/// Whether what an element selects is not asked, since neither it nor anything in it is a control or container.
fn is_passed_at(form: &Form, most: usize, element: u32) -> bool
    ensures { result ≡ below.is_passed most (interface_of form.now) (element_at (interface_of form.now) element) }
{
    match element_in(form, element) {
        Some(here) => is_passed(form, most, here),
        None => false,
    }
}

// ---- one copy

/// Puts the copy of a control or container behind others.
fn push_own<M: NodeMarks>(
    state: &State<'_, M>,
    element: u32,
    handed: &Handed<'_>,
    found: &Found,
    all: &mut ControlList,
) -> Result<(), EvalFault>
    requires found { IsFound (interface_of state.now.over.form.now) (around_over state.now.over) (M.marks_of state.now.marks.now) (seen_handed handed.now) (element_at (interface_of state.now.over.form.now) element) found.now }
    ensures { made.Puts result (map seen_copy all.old) (map seen_copy all.new) (made.if_control true (down.copy_by (interface_of state.now.over.form.now) (around_over state.now.over) (M.marks_of state.now.marks.now) (seen_handed handed.now) element (element_at (interface_of state.now.over.form.now) element) (option_map number found.now.node))) }
{
    let copy = copy_at(state, element, handed, found)?;
    all.push(copy)?;
    Ok(())
}

/// The copy of a control or container.
fn copy_at<M: NodeMarks>(
    state: &State<'_, M>,
    element: u32,
    handed: &Handed<'_>,
    found: &Found,
) -> Result<ControlCopy, EvalFault>
    requires found { IsFound (interface_of state.now.over.form.now) (around_over state.now.over) (M.marks_of state.now.marks.now) (seen_handed handed.now) (element_at (interface_of state.now.over.form.now) element) found.now }
    ensures { GivesBounded EvalFault.Memory EvalFault.Long seen_copy result (down.copy_by (interface_of state.now.over.form.now) (around_over state.now.over) (M.marks_of state.now.marks.now) (seen_handed handed.now) element (element_at (interface_of state.now.over.form.now) element) (option_map number found.now.node)) }
{
    let over = &state.over;
    let value = value_of(over, &found.situation, element, found.node)?;
    let items = items_for(over, &inside_of(handed), element)?;
    let marks = marks_if(state.marks, found.node);
    Ok(ControlCopy {
        element,
        rows: chain_of(over.alloc, handed.rows)?,
        node: found.node,
        value,
        enabled: both(found.is_open, handed.is_enabled),
        readwrite: !marks.readonly,
        required: marks.required,
        valid: marks.valid,
        items,
    })
}

/// The items of a select: other controls have none.
fn items_for(over: &Over<'_>, within: &Inside<'_>, element: u32) -> Result<ItemList, EvalFault>
    ensures { GivesBounded EvalFault.Memory EvalFault.Long (λ l. l) result (down.items_for (interface_of over.now.form.now) (around_over over.now) (seen_inside within.now) element (element_at (interface_of over.now.form.now) element).sort) }
{
    if is_select(over.form, element) {
        return items_in(over, within, element);
    }
    Ok(Items::new(over.alloc))
}
