//! Events as they are made.

ghost use Rattle.std.specs.Prelude.{◌≡◌, [], IfOk, Ok};
ghost use Rattle.xf_def_machine.specs.Events as events;
ghost use Rattle.xf_def_machine.specs.Surround.{interface};
ghost use Rattle.xf_def_ui.specs.Named.{rows_cut};
ghost use Rattle.xf_actions.specs.Performs.{Reads};
ghost use Rattle.xf_actions.specs.Seen.{fired_of, told_of};
ghost use Rattle.xf_actions.specs.Fault.{means};
ghost use Rattle.xf_engine_world.specs.State.{state_of};

use crate::form_world::FormWorld;
use std::alloc::AllocError;
use xf_actions::{EventFault, Fired, PropertyList};
use xf_def_forest::NodeList;
use xf_events as events;
use xf_repeat::rows_cut;

/// An event to the copy of an element in these rows. Whether it bubbles and can be cancelled counts where its name is not known.
pub(crate) fn event(
    world: &FormWorld,
    name: &str,
    bubbles: bool,
    is_cancelable: bool,
    target: u32,
    rows: &NodeList,
) -> Result<Fired, EventFault>
    ensures { Reads means fired_of (state_of world.now) result (Ok (events.fired name.now bubbles is_cancelable [] target rows.now)) }
{
    match events::event(world.alloc, name, bubbles, is_cancelable, target, rows) {
        Ok(event) => Ok(event),
        Err(_) => Err(EventFault::Memory),
    }
}

/// An event to a model, an instance or a submission: in the indexed rows around it, as far as there are some.
pub(crate) fn event_at(world: &FormWorld, name: &str, target: u32) -> Result<Fired, EventFault>
    ensures { Reads means fired_of (state_of world.now) result (Ok (events.fired_at (state_of world.now) name.now [] target)) }
{
    let rows = rows_around(world, target)?;
    match events::event_at(world.alloc, name, target, &rows) {
        Ok(event) => Ok(event),
        Err(_) => Err(EventFault::Memory),
    }
}

/// The same with properties.
pub(crate) fn told_at(
    world: &FormWorld,
    name: &str,
    target: u32,
    told: PropertyList,
) -> Result<Fired, AllocError>
    ensures { IfOk result (λ event. fired_of event ≡ events.fired_at (state_of world.now) name.now (told_of told) target) }
{
    let rows = rows_around(world, target)?;
    events::made(world.alloc, name, true, true, target, &rows, told)
}

/// The indexed rows of the repeats around an element, up to the first repeat that has none.
pub(crate) fn rows_around(world: &FormWorld, element: u32) -> Result<NodeList, AllocError>
    ensures { IfOk result (λ rows. rows ≡ rows_cut (interface (state_of world.now)) (state_of world.now).indexes element) }
{
    rows_cut(
        world.alloc,
        world.work.form(),
        world.work.indexes(),
        element,
    )
}
