//! The rows of a repeat, and what a repeat gives to what stands in it (XForms 1.1, section 9.3.1).

ghost use Rattle.std.specs.Prelude.{◌≡◌, Some, map, option_map, suc};
ghost use Rattle.xf_def_values.specs.Bounded.{GivesBounded};
ghost use Rattle.xf_def_ui.specs.Around.{all_bound};
ghost use Rattle.xf_def_ui.specs.Context as context;
ghost use Rattle.xf_def_ui.specs.Focused.{focus_of};
ghost use Rattle.xf_form_elements.specs.Bound.{seen_bound};
ghost use Rattle.xf_eval_context.specs.Inside.{seen_inside, seen_place};
ghost use Rattle.xf_eval_context.specs.Over.{around_over};

use crate::bound::{all_bound, alone};
use crate::inside::{Inside, Place, focus_in};
use crate::over::Over;
use xf_def_forest::{NodeId, NodeList};
use xf_def_ui::Focus;
use xf_eval::EvalFault;
use xf_form_elements::Bound;

/// All nodes that a binding selects: without a context node none.
pub fn all_at(
    over: &Over<'_>,
    model: u32,
    binding: Bound<'_>,
    focus: Option<Focus>,
) -> Result<NodeList, EvalFault>
    ensures { GivesBounded EvalFault.Memory EvalFault.Long (λ ns. ns) result (all_bound (around_over over.now) model (seen_bound binding.entry) (option_map focus_of focus)) }
{
    match focus {
        Some(focus) => all_bound(over, model, binding, &focus),
        None => Ok(NodeList::new(over.alloc)),
    }
}

/// What a repeat gives to what stands in it: the next row of the chain is the place from there on.
pub(crate) fn enter_row<'a>(
    over: &Over<'_>,
    outer: &Inside<'a>,
    model: u32,
    binding: Bound<'_>,
) -> Result<Inside<'a>, EvalFault>
    ensures { GivesBounded EvalFault.Memory EvalFault.Long seen_inside result (context.enter_row (around_over over.now) (seen_inside outer.now) model (seen_bound binding.entry)) }
{
    let rows = rows_at(over, model, outer.place, binding)?;
    let place = row_place(&rows, outer.rows)?;
    Ok(Inside {
        model,
        place,
        rows: rest(outer.rows),
    })
}

/// All nodes that a binding selects at a place.
fn rows_at(
    over: &Over<'_>,
    model: u32,
    place: Place,
    binding: Bound<'_>,
) -> Result<NodeList, EvalFault>
    ensures { GivesBounded EvalFault.Memory EvalFault.Long (λ ns. ns) result (all_bound (around_over over.now) model (seen_bound binding.entry) (context.focus_in (around_over over.now) model (seen_place place))) }
{
    let focus = focus_in(over, model, place)?;
    all_at(over, model, binding, focus)
}

/// The row that stands first in the chain; without one the place is lost.
fn row_place(rows: &NodeList, chain: &[NodeId]) -> Result<Place, EvalFault>
    ensures { GivesBounded EvalFault.Memory EvalFault.Long seen_place result (Some (context.row_place rows.now (map (λ n. n.number) chain.now))) }
{
    if chain.is_empty() {
        return Ok(Place::Lost);
    }
    Ok(Place::On(standing_in(chain[0], rows)?))
}

/// The rows of the repeats further in.
fn rest(chain: &[NodeId]) -> &[NodeId]
    ensures { map (λ n. n.number) result.now ≡ context.rest (map (λ n. n.number) chain.now) }
{
    if chain.is_empty() {
        return chain;
    }
    &chain[1..]
}

/// A row at its place among the rows; alone where it is none any more.
pub fn standing_in(node: NodeId, rows: &NodeList) -> Result<Focus, EvalFault>
    ensures { GivesBounded EvalFault.Memory EvalFault.Long focus_of result (Some (context.standing_in node.number rows.now)) }
{
    match rows.position(node) {
        Some(place) => row_focus(node, place, rows.len()),
        None => Ok(alone(node)),
    }
}

/// At a place, from 0, among so many rows.
fn row_focus(node: NodeId, place: usize, count: usize) -> Result<Focus, EvalFault>
    ensures { GivesBounded EvalFault.Memory EvalFault.Long focus_of result (Some (record { node = node.number; position = suc place; size = count })) }
{
    match (u32::try_from(place), u32::try_from(count)) {
        (Ok(place), Ok(size)) if place < u32::MAX => Ok(Focus {
            node,
            position: place + 1,
            size,
        }),
        // A forest has fewer nodes.
        _ => Err(EvalFault::Memory),
    }
}
