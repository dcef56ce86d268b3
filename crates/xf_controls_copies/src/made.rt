//! The copies of an element and of those in it, for each chain of rows of the repeats around (XForms 1.1, section 9.3.1).

ghost use Rattle.std.specs.Prelude.{◌≡◌, ◌++◌, ◌∷◌, [], IfOk, length, map};
ghost use Rattle.xf_def_values.specs.Bounded.{GivesBounded};
ghost use Rattle.xf_def_ui.specs.Copies as copies;
ghost use Rattle.xf_def_ui.specs.Elements.{element_at, is_control, is_repeat};
ghost use Rattle.xf_def_ui.specs.Interface.{interface_of};
ghost use Rattle.xf_eval_context.specs.Indexes.{seen_index};
ghost use Rattle.xf_eval_context.specs.Over.{around_over};
ghost use Rattle.xf_controls.specs.Seen.{number, seen_copy};
ghost use Rattle.xf_controls_copies.specs.Made as made;

use crate::copy::copy_of;
use crate::handed::nothing_around;
use crate::parents::are_parents;
use crate::walk::push_below;
use std::alloc::{AllocError, Global};
use xf_controls::ControlList;
use xf_def_forest::{NodeId, NodeList};
use xf_def_syntax::{Control, Form, Kind, Part};
use xf_def_ui::NodeMarks;
use xf_eval::EvalFault;
use xf_eval_context::{Index, Over};
use xf_form_elements::{element_in, parts_at};
use xf_repeat::{rows_of, seeing};

/// What copies are made of: the form over its data, the properties of nodes, and the selected case of each switch.
#[derive(Clone, Copy)]
pub(crate) struct State<'a, M: NodeMarks> {
    pub over: Over<'a>,
    pub marks: &'a M,
    pub cases: &'a [usize],
}

/// The copies of the controls and containers of a form, in document order, what stands in a repeat row by row. An `Err` is want of memory or,
/// as in `evaluate`, a string that is too long.
pub fn copies<M: NodeMarks>(
    over: &Over<'_>,
    marks: &M,
    cases: &[usize],
    indexes: &[Index],
) -> Result<ControlList, EvalFault>
    ensures { GivesBounded EvalFault.Memory EvalFault.Long (map seen_copy) result (copies.copies (interface_of over.now.form.now) (around_over over.now) (M.marks_of marks.now) cases.now (map seen_index indexes.now)) }
{
    let state = State {
        over: seeing(over, indexes),
        marks,
        cases,
    };
    let most = over.form.elements.len();
    let mut all = ControlList::new(over.alloc);
    push_all(&state, most, &mut all)?;
    Ok(all)
}

/// Puts the copies of a form of so many elements behind others. Where each element stands as its parent says, what is around is handed down.
fn push_all<M: NodeMarks>(
    state: &State<'_, M>,
    most: usize,
    all: &mut ControlList,
) -> Result<(), EvalFault>
    requires whole { most ≡ length (interface_of state.now.over.form.now).elements }
    ensures { made.Puts result (map seen_copy all.old) (map seen_copy all.new) (made.copies_at most (interface_of state.now.over.form.now) (around_over state.now.over) (M.marks_of state.now.marks.now) state.now.cases.now [] 0) }
{
    if are_parents(state.over.form) {
        return push_below(state, most, 0, &nothing_around(), all);
    }
    push_copies(state, most, &[], 0, all)
}

/// Puts the copies of an element and of those in it, of which at most so many are nested, behind others.
#[cycle(made)]
fn push_copies<M: NodeMarks>(
    state: &State<'_, M>,
    most: usize,
    rows: &[NodeId],
    element: u32,
    all: &mut ControlList,
) -> Result<(), EvalFault>
    ensures { made.Puts result (map seen_copy all.old) (map seen_copy all.new) (made.copies_at most (interface_of state.now.over.form.now) (around_over state.now.over) (M.marks_of state.now.marks.now) state.now.cases.now (map number rows.now) element) }
{
    if most == 0 {
        return Ok(());
    }
    push_own(state, rows, element, all)?;
    push_inner(state, most - 1, rows, element, all)
}

/// Puts the copies of those in an element behind others: of a repeat row by row.
#[cycle(made)]
fn push_inner<M: NodeMarks>(
    state: &State<'_, M>,
    most: usize,
    rows: &[NodeId],
    element: u32,
    all: &mut ControlList,
) -> Result<(), EvalFault>
    ensures { made.Puts result (map seen_copy all.old) (map seen_copy all.new) (made.inner_copies (interface_of state.now.over.form.now) (around_over state.now.over) (made.copies_at most (interface_of state.now.over.form.now) (around_over state.now.over) (M.marks_of state.now.marks.now) state.now.cases.now) (map number rows.now) element) }
{
    if is_repeat(state.over.form, element) {
        return push_rows(state, most, rows, element, all);
    }
    push_parts(state, most, rows, element, all)
}

/// Puts the copies of those in a repeat, row by row, behind others.
#[cycle(made)]
fn push_rows<M: NodeMarks>(
    state: &State<'_, M>,
    most: usize,
    rows: &[NodeId],
    element: u32,
    all: &mut ControlList,
) -> Result<(), EvalFault>
    ensures { made.Puts result (map seen_copy all.old) (map seen_copy all.new) (made.row_copies (interface_of state.now.over.form.now) (around_over state.now.over) (made.copies_at most (interface_of state.now.over.form.now) (around_over state.now.over) (M.marks_of state.now.marks.now) state.now.cases.now) (map number rows.now) element) }
{
    let set = rows_of(&state.over, rows, element)?;
    for node in set.as_slice() {
        let chain = with_row(state.over.alloc, rows, *node)?;
        push_parts(state, most, chain.as_slice(), element, all)?;
    }
    Ok(())
}

/// Puts the copies of those in an element, in these rows, behind others.
#[cycle(made)]
fn push_parts<M: NodeMarks>(
    state: &State<'_, M>,
    most: usize,
    rows: &[NodeId],
    element: u32,
    all: &mut ControlList,
) -> Result<(), EvalFault>
    ensures { made.Puts result (map seen_copy all.old) (map seen_copy all.new) (made.of_parts (made.copies_at most (interface_of state.now.over.form.now) (around_over state.now.over) (M.marks_of state.now.marks.now) state.now.cases.now (map number rows.now)) (element_at (interface_of state.now.over.form.now) element).parts) }
{
    for part in parts_at(state.over.form, element) {
        push_part(state, most, rows, part, all)?;
    }
    Ok(())
}

#[cycle(made)]
fn push_part<M: NodeMarks>(
    state: &State<'_, M>,
    most: usize,
    rows: &[NodeId],
    part: &Part,
    all: &mut ControlList,
) -> Result<(), EvalFault>
    ensures { made.Puts result (map seen_copy all.old) (map seen_copy all.new) (made.of_part (made.copies_at most (interface_of state.now.over.form.now) (around_over state.now.over) (M.marks_of state.now.marks.now) state.now.cases.now (map number rows.now)) part.now) }
{
    match part {
        Part::Text(_) => Ok(()),
        Part::Element(child) => push_copies(state, most, rows, *child, all),
    }
}

/// Puts the copy of an element behind others, where it is a control or container.
fn push_own<M: NodeMarks>(
    state: &State<'_, M>,
    rows: &[NodeId],
    element: u32,
    all: &mut ControlList,
) -> Result<(), EvalFault>
    ensures { made.Puts result (map seen_copy all.old) (map seen_copy all.new) (made.if_control (is_control (element_at (interface_of state.now.over.form.now) element).sort) (copies.copy_of (interface_of state.now.over.form.now) (around_over state.now.over) (M.marks_of state.now.marks.now) state.now.cases.now (map number rows.now) element)) }
{
    if !is_control(state.over.form, element) {
        return Ok(());
    }
    let copy = copy_of(state, rows, element)?;
    all.push(copy)?;
    Ok(())
}

/// A chain of rows with one more, which is the innermost.
pub(crate) fn with_row(alloc: Global, rows: &[NodeId], node: NodeId) -> Result<NodeList, AllocError>
    ensures { IfOk result (λ chain. chain ≡ map number rows.now ++ node.number ∷ []) }
{
    let mut chain = chain_of(alloc, rows)?;
    chain.push(node)?;
    Ok(chain)
}

/// A chain of rows as a list of its own.
pub(crate) fn chain_of(alloc: Global, rows: &[NodeId]) -> Result<NodeList, AllocError>
    ensures { IfOk result (λ chain. chain ≡ map number rows.now) }
{
    let mut chain = NodeList::new(alloc);
    for node in rows {
        chain.push(*node)?;
    }
    Ok(chain)
}

pub(crate) fn is_control(form: &Form, element: u32) -> bool
    ensures { result ≡ is_control (element_at (interface_of form.now) element).sort }
{
    match element_in(form, element) {
        Some(here) => match &here.kind {
            Kind::Control(_, _) => true,
            _ => false,
        },
        None => false,
    }
}

pub(crate) fn is_repeat(form: &Form, element: u32) -> bool
    ensures { result ≡ is_repeat (interface_of form.now) element }
{
    match element_in(form, element) {
        Some(here) => match &here.kind {
            Kind::Control(_, Control::Repeat(_, _)) => true,
            _ => false,
        },
        None => false,
    }
}
