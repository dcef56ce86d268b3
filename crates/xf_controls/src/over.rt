//! What the copies of controls are made over, and what an element binds there.

ghost use Rattle.std.specs.Prelude.{◌≡◌, ◌&&◌, IfOk, if◌then◌else◌, option_map};
ghost use Rattle.xf_def_values.specs.Bounded.{GivesBounded};
ghost use Rattle.xf_eval.specs.Live.{AroundStands};
ghost use Rattle.xf_def_ui.specs.Copies as copies;
ghost use Rattle.xf_def_ui.specs.Elements as elements;
ghost use Rattle.xf_def_ui.specs.Interface.{element_of, interface_of, sort_of};
ghost use Rattle.xf_form_elements.specs.Bound.{seen_bound};
ghost use Rattle.xf_controls.specs.Found.{IsFound};
ghost use Rattle.xf_controls.specs.Handed as down;
ghost use Rattle.xf_controls.specs.Known as known;
ghost use Rattle.xf_controls.specs.Known.{KnowsNode};
ghost use Rattle.xf_controls.specs.Seen.{IsThere, node_of_place, number, seen_handed};
ghost use Rattle.xf_controls.specs.Surrounded.{around_in};

use crate::binding::first_bound;
use crate::element::{is_container, is_control};
use crate::handed::{Handed, focus_in, place_below, place_for};
use crate::known::{KnownList, known_for};
use std::alloc::Global;
use xf_def_forest::NodeId;
use xf_def_syntax::{Element, Form};
use xf_def_ui::{Marks, NodeMarks};
use xf_eval::{Around, EvalFault};
use xf_form_elements::{Bound, binding_of, scope_of};
use xf_tree::Forest;

/// A form over its data.
#[derive(Clone, Copy)]
pub(crate) struct Over<'a, A: Around, M: NodeMarks> {
    pub form: &'a Form,
    pub forest: &'a Forest,
    pub around: &'a A,
    pub marks: &'a M,
    pub known: &'a KnownList,
}

/// What an element binds: the node, with its properties, and whether it binds nothing or a relevant node.
#[derive(Clone, Copy, Debug)]
pub(crate) struct Found {
    pub node: Option<NodeId>,
    pub marks: Marks,
    pub is_open: bool,
}

/// What an element binds.
pub(crate) fn found_at<A: Around, M: NodeMarks>(
    alloc: Global,
    over: &Over<'_, A, M>,
    element: u32,
    here: &Element,
    handed: &Handed,
) -> Result<Found, EvalFault>
    requires around { AroundStands (A.given over.now.around.now) over.now.forest.now.forest.nodes }
    requires place { IsThere (node_of_place handed.now.place) over.now.forest.now.forest.nodes }
    requires known { KnowsNode over.now.forest.now.forest.nodes (known.known_for over.now.known.now element (elements.is_control (sort_of here.now.kind))) (down.node_in (interface_of over.now.form.now) (around_in (A.given over.now.around.now) over.now.form.now.tables over.now.forest.now.forest.nodes) (seen_handed handed.now) (element_of over.now.form.now.tables here.now)) }
    ensures value { GivesBounded EvalFault.Memory EvalFault.Long (λ found. option_map number found.node) result (down.node_in (interface_of over.now.form.now) (around_in (A.given over.now.around.now) over.now.form.now.tables over.now.forest.now.forest.nodes) (seen_handed handed.now) (element_of over.now.form.now.tables here.now)) }
    ensures found { IfOk result (λ found. IsFound (M.marks_of over.now.marks.now) (element_of over.now.form.now.tables here.now) found) }
    ensures live { IfOk result (λ found. IsThere found.node over.now.forest.now.forest.nodes) }
{
    let node = node_at(alloc, over, element, here, handed)?;
    let marks = marks_if(over.marks, node);
    Ok(Found {
        node,
        marks,
        is_open: is_open_by(binding_of(&over.form.tables, here), node, marks),
    })
}

/// The node that an element binds: the one that is known, else the one that it selects.
fn node_at<A: Around, M: NodeMarks>(
    alloc: Global,
    over: &Over<'_, A, M>,
    element: u32,
    here: &Element,
    handed: &Handed,
) -> Result<Option<NodeId>, EvalFault>
    requires around { AroundStands (A.given over.now.around.now) over.now.forest.now.forest.nodes }
    requires place { IsThere (node_of_place handed.now.place) over.now.forest.now.forest.nodes }
    requires known { KnowsNode over.now.forest.now.forest.nodes (known.known_for over.now.known.now element (elements.is_control (sort_of here.now.kind))) (down.node_in (interface_of over.now.form.now) (around_in (A.given over.now.around.now) over.now.form.now.tables over.now.forest.now.forest.nodes) (seen_handed handed.now) (element_of over.now.form.now.tables here.now)) }
    ensures value { GivesBounded EvalFault.Memory EvalFault.Long (option_map number) result (down.node_in (interface_of over.now.form.now) (around_in (A.given over.now.around.now) over.now.form.now.tables over.now.forest.now.forest.nodes) (seen_handed handed.now) (element_of over.now.form.now.tables here.now)) }
    ensures live { IfOk result (λ node. IsThere node over.now.forest.now.forest.nodes) }
{
    let known = known_for(over.known.as_slice(), element, is_control(&here.kind));
    if let Some(node) = known {
        return Ok(node);
    }
    selected(alloc, over, here, handed)
}

/// The node that an element selects.
fn selected<A: Around, M: NodeMarks>(
    alloc: Global,
    over: &Over<'_, A, M>,
    here: &Element,
    handed: &Handed,
) -> Result<Option<NodeId>, EvalFault>
    requires around { AroundStands (A.given over.now.around.now) over.now.forest.now.forest.nodes }
    requires place { IsThere (node_of_place handed.now.place) over.now.forest.now.forest.nodes }
    ensures value { GivesBounded EvalFault.Memory EvalFault.Long (option_map number) result (down.node_in (interface_of over.now.form.now) (around_in (A.given over.now.around.now) over.now.form.now.tables over.now.forest.now.forest.nodes) (seen_handed handed.now) (element_of over.now.form.now.tables here.now)) }
    ensures live { IfOk result (λ node. IsThere node over.now.forest.now.forest.nodes) }
{
    let tables = &over.form.tables;
    let binding = binding_of(tables, here);
    let model = scope_of(over.form, handed.model, binding, here.model);
    let place = place_for(&here.kind, handed.place);
    let focus = focus_in(over.forest, tables, over.around, model, place);
    first_bound(
        alloc,
        over.forest,
        tables,
        over.around,
        model,
        binding,
        focus,
    )
}

/// The properties of a node, and what a copy without a node has.
fn marks_if<M: NodeMarks>(marks: &M, node: Option<NodeId>) -> Marks
    ensures { result ≡ copies.marks_if (M.marks_of marks.now) (option_map number node) }
{
    match node {
        Some(node) => marks.marks(node),
        None => Marks {
            relevant: true,
            readonly: false,
            required: false,
            valid: true,
        },
    }
}

/// Whether what binds a node with these properties binds nothing or a relevant node.
fn is_open_by(binding: Bound<'_>, node: Option<NodeId>, marks: Marks) -> bool
    ensures { result ≡ copies.is_open_by (λ _. marks) (seen_bound binding.entry) (option_map number node) }
{
    match binding {
        Bound::Unbound => true,
        _ => match node {
            Some(_) => marks.relevant,
            None => false,
        },
    }
}

/// What an element gives to what stands in it.
pub(crate) fn handed_by<A: Around, M: NodeMarks>(
    over: &Over<'_, A, M>,
    here: &Element,
    handed: &Handed,
    found: &Found,
) -> Handed
    requires found { IsFound (M.marks_of over.now.marks.now) (element_of over.now.form.now.tables here.now) found.now }
    requires place { IsThere (node_of_place handed.now.place) over.now.forest.now.forest.nodes }
    requires live { IsThere found.now.node over.now.forest.now.forest.nodes }
    ensures value { seen_handed result ≡ down.handed_by (interface_of over.now.form.now) (M.marks_of over.now.marks.now) (seen_handed handed.now) (element_of over.now.form.now.tables here.now) (option_map number found.now.node) }
    ensures live { IsThere (node_of_place result.place) over.now.forest.now.forest.nodes }
{
    let binding = binding_of(&over.form.tables, here);
    Handed {
        model: scope_of(over.form, handed.model, binding, here.model),
        place: place_below(handed.place, binding, found.node),
        is_open: open_below(is_container(&here.kind), handed.is_open, found.is_open),
    }
}

fn open_below(is_container: bool, is_open: bool, is_open_here: bool) -> bool
    ensures { result ≡ (if is_container then is_open_here && is_open else is_open) }
{
    if is_container {
        return both(is_open_here, is_open);
    }
    is_open
}

pub(crate) fn both(one: bool, other: bool) -> bool
    ensures { result ≡ (one && other) }
{
    if one { other } else { false }
}
