//! Where an element is evaluated (XForms 1.1, section 7.2): its model in scope, and the node of the nearest element around it that has a binding
//! or is a row.

ghost use Rattle.std.specs.Prelude.{◌≡◌, [], Some, map, option_map, reverse};
ghost use Rattle.xf_def_values.specs.Bounded.{GivesBounded};
ghost use Rattle.xf_def_ui.specs.Context as context;
ghost use Rattle.xf_def_ui.specs.Elements.{above, element_at, elements_on, is_repeat_sort};
ghost use Rattle.xf_def_ui.specs.Interface.{element_of, interface_of, sort_of};
ghost use Rattle.xf_form_elements.specs.Bound.{seen_bound};
ghost use Rattle.xf_def_ui.specs.Focused.{focus_of};
ghost use Rattle.xf_eval_context.specs.Inside.{bound_place, first_inside, place_for, seen_context, seen_inside, seen_place};
ghost use Rattle.xf_eval_context.specs.Over.{around_over};

use crate::around::{document_of, documents};
use crate::bound::{alone, first_bound};
use crate::over::Over;
use crate::rows::enter_row;
use xf_def_forest::NodeId;
use xf_def_syntax::{Control, Element, Kind};
use xf_def_ui::Focus;
use xf_eval::EvalFault;
use xf_form_elements::{Bound, binding_of, element_in, parent_of, scope_of};

/// The node that the elements around give.
#[derive(Clone, Copy, Debug)]
pub enum Place {
    /// None of them has a binding or is a row.
    Free,
    /// The nearest one that has a binding selects nothing, or has no row.
    Lost,
    On(Focus),
}

/// What the elements around an element give it.
#[derive(Clone, Copy, Debug)]
pub struct Inside<'a> {
    /// The model in scope.
    pub model: u32,
    pub place: Place,
    /// The rows of the repeats further in, the outermost first.
    pub rows: &'a [NodeId],
}

/// Where an element is evaluated.
#[derive(Clone, Copy, Debug)]
pub struct Situation {
    pub model: u32,
    /// None where it has no context node.
    pub focus: Option<Focus>,
}

/// Where an element that stands in no repeat is evaluated.
pub fn context_of(over: &Over<'_>, element: u32) -> Result<Situation, EvalFault>
    ensures { GivesBounded EvalFault.Memory EvalFault.Long seen_context result (context.context_of (interface_of over.now.form.now) (around_over over.now) [] element) }
{
    context_under(over, &[], element)
}

/// Where an element is evaluated under a chain of row nodes of the repeats around it, the outermost first.
pub fn context_under(over: &Over<'_>, rows: &[NodeId], element: u32) -> Result<Situation, EvalFault>
    ensures { GivesBounded EvalFault.Memory EvalFault.Long seen_context result (context.context_of (interface_of over.now.form.now) (around_over over.now) (map (λ n. n.number) rows.now) element) }
{
    let within = inside_under(over, rows, element)?;
    context_in(over, &within, element)
}

/// Where an element is evaluated, by what the elements around it give.
pub fn context_in(
    over: &Over<'_>,
    within: &Inside<'_>,
    element: u32,
) -> Result<Situation, EvalFault>
    ensures { GivesBounded EvalFault.Memory EvalFault.Long seen_context result (Some (context.context_in (interface_of over.now.form.now) (around_over over.now) (seen_inside within.now) (element_at (interface_of over.now.form.now) element))) }
{
    let model = model_in(over, within.model, element);
    Ok(Situation {
        model,
        focus: focus_in(over, model, within.place)?,
    })
}

/// What the elements around an element that stands in no repeat give it.
pub fn entered<'a>(over: &Over<'_>, element: u32) -> Result<Inside<'a>, EvalFault>
    ensures { GivesBounded EvalFault.Memory EvalFault.Long seen_inside result (context.inside (interface_of over.now.form.now) (around_over over.now) [] element) }
{
    inside_under(over, &[], element)
}

/// What the elements around an element give it under a chain of row nodes of the repeats among them, the outermost first.
pub fn inside_under<'a>(
    over: &Over<'_>,
    rows: &'a [NodeId],
    element: u32,
) -> Result<Inside<'a>, EvalFault>
    ensures { GivesBounded EvalFault.Memory EvalFault.Long seen_inside result (context.inside (interface_of over.now.form.now) (around_over over.now) (map (λ n. n.number) rows.now) element) }
{
    let form = over.form;
    inside_above(over, rows, form.elements.len(), parent_of(form, element))
}

/// What an element and those around it, of which there are at most so many, give to what stands in it.
fn inside_above<'a>(
    over: &Over<'_>,
    rows: &'a [NodeId],
    most: usize,
    parent: Option<u32>,
) -> Result<Inside<'a>, EvalFault>
    ensures { GivesBounded EvalFault.Memory EvalFault.Long seen_inside result (context.entered (interface_of over.now.form.now) (around_over over.now) (first_inside (map (λ n. n.number) rows.now)) (elements_on (interface_of over.now.form.now) (reverse (above most (interface_of over.now.form.now) parent)))) }
{
    if most == 0 {
        return Ok(first(rows));
    }
    let Some(element) = parent else {
        return Ok(first(rows));
    };
    let outer = inside_above(over, rows, most - 1, parent_of(over.form, element))?;
    enter(over, &outer, element)
}

/// What the root of a form has around it.
fn first(rows: &[NodeId]) -> Inside<'_>
    ensures { seen_inside result ≡ first_inside (map (λ n. n.number) rows.now) }
{
    Inside {
        model: 0,
        place: Place::Free,
        rows,
    }
}

/// What an element gives to what stands in it.
pub fn enter<'a>(over: &Over<'_>, outer: &Inside<'a>, element: u32) -> Result<Inside<'a>, EvalFault>
    ensures { GivesBounded EvalFault.Memory EvalFault.Long seen_inside result (context.enter (interface_of over.now.form.now) (around_over over.now) (seen_inside outer.now) (element_at (interface_of over.now.form.now) element)) }
{
    match element_in(over.form, element) {
        Some(here) => enter_element(over, outer, here),
        None => Ok(*outer),
    }
}

fn enter_element<'a>(
    over: &Over<'_>,
    outer: &Inside<'a>,
    here: &Element,
) -> Result<Inside<'a>, EvalFault>
    ensures { GivesBounded EvalFault.Memory EvalFault.Long seen_inside result (context.enter (interface_of over.now.form.now) (around_over over.now) (seen_inside outer.now) (element_of over.now.form.now.tables here.now)) }
{
    let form = over.form;
    let binding = binding_of(&form.tables, here);
    let model = scope_of(form, outer.model, binding, here.model);
    if is_repeat(&here.kind) {
        return enter_row(over, outer, model, binding);
    }
    let from = place_for(&here.kind, outer.place);
    let place = bound_place(over, model, outer.place, from, binding)?;
    Ok(Inside {
        model,
        place,
        rows: outer.rows,
    })
}

fn is_repeat(kind: &Kind) -> bool
    ensures { result ≡ is_repeat_sort (sort_of kind.now) }
{
    match kind {
        Kind::Control(_, control) => match control {
            Control::Repeat(_, _) => true,
            _ => false,
        },
        _ => false,
    }
}

/// A submission has nothing around it.
fn place_for(kind: &Kind, place: Place) -> Place
    ensures { seen_place result ≡ place_for (sort_of kind.now) (seen_place place) }
{
    match kind {
        Kind::Model(_) | Kind::Instance(_) | Kind::Bind(_) | Kind::Submission(_) => Place::Free,
        _ => place,
    }
}

/// The place that a binding in a model gives, evaluated at another one.
fn bound_place(
    over: &Over<'_>,
    model: u32,
    place: Place,
    from: Place,
    binding: Bound<'_>,
) -> Result<Place, EvalFault>
    ensures { GivesBounded EvalFault.Memory EvalFault.Long seen_place result (bound_place (around_over over.now) model (seen_place place) (seen_place from) (seen_bound binding.entry)) }
{
    match binding {
        Bound::Unbound => Ok(place),
        _ => {
            let node = match focus_in(over, model, from)? {
                Some(focus) => first_bound(over, model, binding, &focus)?,
                None => None,
            };
            Ok(place_of(node))
        }
    }
}

/// The bound node by itself.
fn place_of(node: Option<NodeId>) -> Place
    ensures { seen_place result ≡ context.place_of (option_map (λ n. n.number) node) }
{
    match node {
        Some(node) => Place::On(alone(node)),
        None => Place::Lost,
    }
}

/// The context node of what stands at a place.
pub(crate) fn focus_in(
    over: &Over<'_>,
    model: u32,
    place: Place,
) -> Result<Option<Focus>, EvalFault>
    ensures { GivesBounded EvalFault.Memory EvalFault.Long (option_map focus_of) result (Some (context.focus_in (around_over over.now) model (seen_place place))) }
{
    match place {
        Place::Free => {
            let instances = over.form.tables.instances.as_slice();
            let documents = documents(over.alloc, instances, over.forest)?;
            match document_of(instances, documents.as_slice(), model, "") {
                Some(node) => Ok(Some(alone(node))),
                None => Ok(None),
            }
        }
        Place::Lost => Ok(None),
        Place::On(focus) => Ok(Some(focus)),
    }
}

/// The model in scope at an element inside one.
fn model_in(over: &Over<'_>, outer: u32, element: u32) -> u32
    ensures { result ≡ context.scope_of (interface_of over.now.form.now) outer (element_at (interface_of over.now.form.now) element) }
{
    let form = over.form;
    match element_in(form, element) {
        Some(here) => scope_of(form, outer, binding_of(&form.tables, here), here.model),
        None => outer,
    }
}
