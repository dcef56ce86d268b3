//! What an insert and a delete ask for (XForms 1.1, sections 10.3 and 10.4).

ghost use Rattle.std.specs.Prelude.{◌≡◌, ◌-◌, [], ◌∷◌, Ok, Some, option_map, slice_get};
ghost use Rattle.xf_def_xpath.specs.Binding.{as_list};
ghost use Rattle.xf_def_xpath.specs.Meaning.{meaning};
ghost use Rattle.xf_def_machine.specs.Delete as del;
ghost use Rattle.xf_def_machine.specs.Insert as ins;
ghost use Rattle.xf_actions.specs.Performs.{Reads};
ghost use Rattle.xf_actions.specs.Seen.{acting_of, focus_of};
ghost use Rattle.xf_actions.specs.Fault.{means};
ghost use Rattle.xf_def_form.specs.Formed.{profile};
ghost use Rattle.xf_engine_world.specs.State.{state_of};

use crate::form_world::FormWorld;
use crate::reading::whole;
use crate::surrounding::over_event;
use xf_actions::{Acting, EventFault, Fired, Focus};
use xf_def_forest::{NodeId, NodeList};
use xf_def_syntax::Expr;
use xf_eval::{nodes_in, single};
use xf_eval_context::value;
use xf_insert::held_at;

/// The nodes to copy: those of `origin`, else the last one of the set.
pub(crate) fn origin(
    world: &FormWorld,
    fired: &Fired,
    acting: &Acting,
    focus: &Focus,
    origin: &Option<Expr>,
    set: &NodeList,
) -> Result<NodeList, EventFault>
    ensures { Reads means (λ ns. ns) (state_of world.now) result (ins.origin_asked profile (acting_of fired.now acting.now) (focus_of focus.now) (option_map meaning origin.now) set.now (state_of world.now)) }
{
    match origin {
        Some(expr) => origin_by(world, fired, acting, focus, expr),
        None => last_one(world, set),
    }
}

fn origin_by(
    world: &FormWorld,
    fired: &Fired,
    acting: &Acting,
    focus: &Focus,
    expr: &Expr,
) -> Result<NodeList, EventFault>
    ensures { Reads means (λ ns. ns) (state_of world.now) result (ins.origin_asked profile (acting_of fired.now acting.now) (focus_of focus.now) (Some (meaning expr.now)) [] (state_of world.now)) }
{
    let value = value(&over_event(world, fired), acting.model, focus, expr)?;
    Ok(nodes_in(world.alloc, value))
}

fn last_one(world: &FormWorld, set: &NodeList) -> Result<NodeList, EventFault>
    ensures { Reads means (λ ns. ns) (state_of world.now) result (Ok (ins.last_one set.now)) }
{
    let count = set.len();
    if count == 0 {
        return Ok(NodeList::new(world.alloc));
    }
    match single(world.alloc, set.at(count - 1)) {
        Ok(nodes) => Ok(nodes),
        Err(_) => Err(EventFault::Memory),
    }
}

/// The place in the set that the `at` of an insert names, the first node of the set being its context.
pub(crate) fn insert_place(
    world: &FormWorld,
    fired: &Fired,
    acting: &Acting,
    at: &Option<Expr>,
    set: &NodeList,
) -> Result<Option<i64>, EventFault>
    ensures { Reads means (λ k. k) (state_of world.now) result (ins.at_asked profile (acting_of fired.now acting.now) (option_map meaning at.now) set.now (state_of world.now)) }
{
    match at {
        Some(expr) => insert_at(world, fired, acting, expr, set),
        None => Ok(None),
    }
}

fn insert_at(
    world: &FormWorld,
    fired: &Fired,
    acting: &Acting,
    expr: &Expr,
    set: &NodeList,
) -> Result<Option<i64>, EventFault>
    ensures { Reads means (λ k. k) (state_of world.now) result (ins.at_asked profile (acting_of fired.now acting.now) (Some (meaning expr.now)) set.now (state_of world.now)) }
{
    let count = set.len();
    if count == 0 {
        return Ok(None);
    }
    let Ok(size) = u32::try_from(count) else {
        // No forest has so many nodes.
        return Err(EventFault::Memory);
    };
    let focus = Focus {
        node: set.at(0),
        position: 1,
        size,
    };
    whole(world, fired, acting, &focus, expr)
}

/// The place in the set that the `at` of a delete names: NaN names the last node.
pub(crate) fn delete_place(
    world: &FormWorld,
    fired: &Fired,
    acting: &Acting,
    at: &Option<Expr>,
    set: &NodeList,
) -> Result<Option<i64>, EventFault>
    ensures { Reads means (λ k. k) (state_of world.now) result (del.at_asked profile (acting_of fired.now acting.now) (option_map meaning at.now) set.now (state_of world.now)) }
{
    match at {
        Some(expr) => delete_at(world, fired, acting, expr, set),
        None => Ok(None),
    }
}

fn delete_at(
    world: &FormWorld,
    fired: &Fired,
    acting: &Acting,
    expr: &Expr,
    set: &NodeList,
) -> Result<Option<i64>, EventFault>
    ensures { Reads means (λ k. k) (state_of world.now) result (del.at_asked profile (acting_of fired.now acting.now) (Some (meaning expr.now)) set.now (state_of world.now)) }
{
    let count = set.len();
    if count == 0 {
        return Ok(None);
    }
    let Ok(size) = u32::try_from(count) else {
        // No forest has so many nodes.
        return Err(EventFault::Memory);
    };
    let focus = Focus {
        node: set.at(0),
        position: 1,
        size,
    };
    let at = whole(world, fired, acting, &focus, expr)?;
    match at {
        Some(at) => Ok(Some(at)),
        None => Ok(Some(size as i64)),
    }
}

/// What is told as the place of an insert.
pub(crate) fn insert_location(
    world: &FormWorld,
    focus: &Focus,
    set: &NodeList,
    at: Option<i64>,
) -> Result<NodeList, EventFault>
    ensures { Reads means (λ ns. ns) (state_of world.now) result (Ok (ins.location_of at (focus_of focus.now) set.now)) }
{
    let count = set.len();
    if count == 0 {
        return one(world, focus.node);
    }
    listed(world, set, one_less(held_at(count, at)))
}

fn listed(world: &FormWorld, set: &NodeList, place: usize) -> Result<NodeList, EventFault>
    ensures { Reads means (λ ns. ns) (state_of world.now) result (Ok (as_list (slice_get set.now place))) }
{
    match set.get(place) {
        Some(node) => one(world, node),
        None => Ok(NodeList::new(world.alloc)),
    }
}

fn one_less(place: usize) -> usize
    ensures { result ≡ place - 1 }
{
    place.saturating_sub(1)
}

fn one(world: &FormWorld, node: NodeId) -> Result<NodeList, EventFault>
    ensures { Reads means (λ ns. ns) (state_of world.now) result (Ok (node.number ∷ [])) }
{
    match single(world.alloc, node) {
        Ok(nodes) => Ok(nodes),
        Err(_) => Err(EventFault::Memory),
    }
}
