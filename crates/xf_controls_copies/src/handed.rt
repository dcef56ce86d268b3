//! What the elements around an element give it under a chain of rows, handed down from one to the next (XForms 1.1, sections 7.2, 8.1.1 and 9).

ghost use Rattle.std.specs.Prelude.{◌≡◌, ◌++◌, ◌∷◌, [], IfOk, Some, map, option_map};
ghost use Rattle.xf_def_values.specs.Bounded.{GivesBounded};
ghost use Rattle.xf_def_ui.specs.Elements.{element_at};
ghost use Rattle.xf_def_ui.specs.Interface.{interface_of};
ghost use Rattle.xf_form_elements.specs.Bound.{seen_bound};
ghost use Rattle.xf_eval_context.specs.Inside.{seen_inside, seen_place};
ghost use Rattle.xf_eval_context.specs.Over.{around_over};
ghost use Rattle.xf_controls.specs.Handed as handed;
ghost use Rattle.xf_controls.specs.Seen.{number};
ghost use Rattle.xf_controls_copies.specs.Handed as down;
ghost use Rattle.xf_controls_copies.specs.Seen.{IsFound, seen_handed};

use crate::copy::{node_in, own_binding};
use crate::enabled::{both, is_container, is_open_by};
use crate::made::State;
use xf_def_forest::{NodeId, NodeList};
use xf_def_syntax::Form;
use xf_def_ui::NodeMarks;
use xf_eval::EvalFault;
use xf_eval_context::{Inside, Place, Situation, alone, binding_at, context_in, standing_in};
use xf_form_elements::Bound;
use xf_form_elements::switch::is_open;

/// What the elements around an element give it.
#[derive(Clone, Copy, Debug)]
pub(crate) struct Handed<'a> {
    /// The model in scope.
    pub model: u32,
    pub place: Place,
    /// The row nodes of the repeats around, the outermost first.
    pub rows: &'a [NodeId],
    /// Each container around binds nothing or a relevant node, and each case around is selected.
    pub is_enabled: bool,
}

/// What a control or container binds.
#[derive(Clone, Copy, Debug)]
pub(crate) struct Found {
    /// Where it is evaluated.
    pub situation: Situation,
    pub node: Option<NodeId>,
    /// It binds nothing or a relevant node.
    pub is_open: bool,
}

/// What the root of a form has around it.
pub(crate) fn nothing_around<'a>() -> Handed<'a>
    ensures { seen_handed result ≡ down.first_handed }
{
    Handed {
        model: 0,
        place: Place::Free,
        rows: &[],
        is_enabled: true,
    }
}

/// No rows are left over.
pub(crate) fn inside_of<'a>(handed: &Handed<'a>) -> Inside<'a>
    ensures { seen_inside result ≡ down.inside_of (seen_handed handed.now) }
{
    Inside {
        model: handed.model,
        place: handed.place,
        rows: &[],
    }
}

/// What a control or container binds.
pub(crate) fn found_at<M: NodeMarks>(
    state: &State<'_, M>,
    element: u32,
    handed: &Handed<'_>,
) -> Result<Found, EvalFault>
    ensures value { GivesBounded EvalFault.Memory EvalFault.Long (λ found. option_map number found.node) result (down.node_in (interface_of state.now.over.form.now) (around_over state.now.over) (seen_handed handed.now) (element_at (interface_of state.now.over.form.now) element)) }
    ensures found { IfOk result (λ found. IsFound (interface_of state.now.over.form.now) (around_over state.now.over) (M.marks_of state.now.marks.now) (seen_handed handed.now) (element_at (interface_of state.now.over.form.now) element) found) }
{
    let over = &state.over;
    let situation = context_in(over, &inside_of(handed), element)?;
    let node = node_in(over, &situation, element)?;
    Ok(Found {
        situation,
        node,
        is_open: is_open_by(state.marks, own_binding(over.form, element), node),
    })
}

// ---- what is given to what stands in it

/// By a control or container that binds a node, and is no repeat.
pub(crate) fn handed_by<'a, M: NodeMarks>(
    state: &State<'_, M>,
    element: u32,
    handed: &Handed<'a>,
    found: &Found,
) -> Handed<'a>
    requires found { IsFound (interface_of state.now.over.form.now) (around_over state.now.over) (M.marks_of state.now.marks.now) (seen_handed handed.now) (element_at (interface_of state.now.over.form.now) element) found.now }
    ensures { seen_handed result ≡ down.handed_by (interface_of state.now.over.form.now) (M.marks_of state.now.marks.now) state.now.cases.now (seen_handed handed.now) element (element_at (interface_of state.now.over.form.now) element) (option_map number found.now.node) }
{
    let form = state.over.form;
    let is_passable = both(
        is_open_if(form, element, found),
        both(is_open(form, state.cases, element), handed.is_enabled),
    );
    Handed {
        model: found.situation.model,
        place: place_below(handed.place, binding_at(form, element), found.node),
        rows: handed.rows,
        is_enabled: is_passable,
    }
}

/// Whether an element is no container, or an open one.
fn is_open_if(form: &Form, element: u32, found: &Found) -> bool
    ensures { result ≡ down.open_if (element_at (interface_of form.now) element).sort found.now.is_open }
{
    if is_container(form, element) {
        return found.is_open;
    }
    true
}

/// What stands in an element that binds a node is evaluated there.
fn place_below(place: Place, binding: Bound<'_>, node: Option<NodeId>) -> Place
    ensures { seen_place result ≡ handed.place_below (seen_place place) (seen_bound binding.entry) (option_map number node) }
{
    match binding {
        Bound::Unbound => place,
        _ => match node {
            Some(node) => Place::On(alone(node)),
            None => Place::Lost,
        },
    }
}

/// By an element that is no control or container, by what is evaluated in it.
pub(crate) fn handed_in<'a>(handed: &Handed<'a>, within: &Inside<'_>) -> Handed<'a>
    ensures { seen_handed result ≡ down.handed_in (seen_handed handed.now) (seen_inside within.now) }
{
    Handed {
        model: within.model,
        place: within.place,
        rows: handed.rows,
        is_enabled: handed.is_enabled,
    }
}

/// By a repeat in one of its rows, which is the innermost of a chain.
pub(crate) fn handed_row<'a>(
    handed: &Handed<'_>,
    model: u32,
    set: &NodeList,
    node: NodeId,
    chain: &'a [NodeId],
) -> Result<Handed<'a>, EvalFault>
    requires chain { map number chain.now ≡ map number handed.now.rows.now ++ node.number ∷ [] }
    ensures { GivesBounded EvalFault.Memory EvalFault.Long seen_handed result (Some (down.in_row (seen_handed handed.now) model set.now node.number)) }
{
    Ok(Handed {
        model,
        place: Place::On(standing_in(node, set)?),
        rows: chain,
        is_enabled: handed.is_enabled,
    })
}
