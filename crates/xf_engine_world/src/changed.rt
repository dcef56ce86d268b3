//! What an insert and a delete tell an instance (XForms 1.1, sections 4.4.5 and 4.4.6).

ghost use Rattle.std.specs.Prelude.{Ok, codes, map};
ghost use Rattle.xf_def_machine.specs.Delete.{delete_told, location_of};
ghost use Rattle.xf_def_machine.specs.Insert.{insert_told};
ghost use Rattle.xf_actions.specs.Performs.{Reads};
ghost use Rattle.xf_actions.specs.Seen.{fired_of, place_of};
ghost use Rattle.xf_actions.specs.TreeChanges.{instance_event};
ghost use Rattle.xf_actions.specs.Fault.{means};
ghost use Rattle.xf_engine_world.specs.State.{state_of};

use crate::form_world::FormWorld;
use crate::telling::rows_around;
use xf_actions::{EventFault, Fired, Inserting};
use xf_def_forest::NodeList;
use xf_events::{ToInstance, instance_element};

/// The event that an insert tells an instance, in the indexed rows around that, as far as there are some.
pub(crate) fn insert_event(
    world: &FormWorld,
    instance: usize,
    inserting: &Inserting,
    tops: &NodeList,
) -> Result<Fired, EventFault>
    ensures { Reads means fired_of (state_of world.now) result (Ok (instance_event (codes "xforms-insert") (insert_told (state_of world.now) inserting.now.is_before tops.now (map (λ q. q.origin) (map place_of inserting.now.places)) inserting.now.location) instance (state_of world.now))) }
{
    let target = instance_element(world.work.form(), instance);
    let rows = rows_around(world, target)?;
    let to = ToInstance {
        alloc: world.alloc,
        forest: world.work.forest(),
        target,
        rows: &rows,
    };
    match xf_events::insert_event(&to, inserting, tops) {
        Ok(event) => Ok(event),
        Err(_) => Err(EventFault::Memory),
    }
}

/// The event that a delete tells an instance, in the indexed rows around that.
pub(crate) fn delete_event(
    world: &FormWorld,
    instance: usize,
    nodes: &NodeList,
    set: &NodeList,
    at: Option<i64>,
) -> Result<Fired, EventFault>
    ensures { Reads means fired_of (state_of world.now) result (Ok (instance_event (codes "xforms-delete") (delete_told (state_of world.now) nodes.now (location_of (state_of world.now).form.decimals set.now at)) instance (state_of world.now))) }
{
    let form = world.work.form();
    let target = instance_element(form, instance);
    let rows = rows_around(world, target)?;
    let to = ToInstance {
        alloc: world.alloc,
        forest: world.work.forest(),
        target,
        rows: &rows,
    };
    match xf_events::delete_event(&to, form.decimals, nodes, set, at) {
        Ok(event) => Ok(event),
        Err(_) => Err(EventFault::Memory),
    }
}
