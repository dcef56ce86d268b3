//! Where the copies of an insert go, and which nodes a delete takes (XForms 1.1, sections 10.3 and 10.4): nothing comes or goes under a readonly
//! node.

ghost use Rattle.std.specs.Prelude.{Ok, map};
ghost use Rattle.xf_def_machine.specs.Delete as del;
ghost use Rattle.xf_def_machine.specs.Insert as ins;
ghost use Rattle.xf_def_machine.specs.Tables.{insert_by};
ghost use Rattle.xf_def_model.specs.Places as places;
ghost use Rattle.xf_def_model.specs.Taken as taken;
ghost use Rattle.xf_actions.specs.Performs.{Reads};
ghost use Rattle.xf_actions.specs.Seen.{focus_of, place_of};
ghost use Rattle.xf_actions.specs.Fault.{means};
ghost use Rattle.xf_engine_world.specs.State.{state_of};

use crate::form_world::FormWorld;
use xf_actions::{EventFault, Focus, PlaceList};
use xf_def_forest::NodeList;
use xf_def_syntax::InsertWork;
use xf_insert::{Asked, Planning};

/// Where the copies of an insert go.
pub(crate) fn planned_insert(
    world: &FormWorld,
    work: &InsertWork,
    focus: &Focus,
    set: &NodeList,
    origin: &NodeList,
    at: Option<i64>,
) -> Result<PlaceList, EventFault>
    ensures { Reads means (map place_of) (state_of world.now) result (Ok (places.planned_insert (state_of world.now).forest.nodes (ins.asked_with (insert_by work.now) (state_of world.now) (focus_of focus.now) set.now origin.now at))) }
{
    let forest = world.work.forest();
    let marks = world.work.marks();
    let planning = Planning {
        alloc: world.alloc,
        forest,
        marks: &marks,
    };
    let asked = Asked {
        context: focus.node,
        set,
        origin,
        at,
    };
    match xf_insert::planned_insert(&planning, work, &asked) {
        Ok(places) => Ok(places),
        Err(_) => Err(EventFault::Memory),
    }
}

/// The nodes that a delete takes.
pub(crate) fn planned_delete(
    world: &FormWorld,
    set: &NodeList,
    at: Option<i64>,
) -> Result<NodeList, EventFault>
    ensures { Reads means (λ ns. ns) (state_of world.now) result (Ok (taken.planned_delete (state_of world.now).forest.nodes (del.asked_with (state_of world.now) set.now at))) }
{
    let forest = world.work.forest();
    let marks = world.work.marks();
    let planning = Planning {
        alloc: world.alloc,
        forest,
        marks: &marks,
    };
    match xf_insert::planned_delete(&planning, set, at) {
        Ok(nodes) => Ok(nodes),
        Err(_) => Err(EventFault::Memory),
    }
}
