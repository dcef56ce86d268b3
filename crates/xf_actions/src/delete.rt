//! The action delete (XForms 1.1, section 10.4).

ghost use Rattle.std.specs.Prelude.{◌≡◌, map, option_map};
ghost use Rattle.xf_def_machine.specs.Flow.{in_turn};
ghost use Rattle.xf_def_machine.specs.Acting.{act_at};
ghost use Rattle.xf_def_machine.specs.Insert.{moved_focus};
ghost use Rattle.xf_def_machine.specs.Delete.{at_asked, location_of};
ghost use Rattle.xf_actions.specs.Fault.{means};
ghost use Rattle.xf_actions.specs.Performs.{Runs, Makes, Reads};
ghost use Rattle.xf_actions.specs.Seen.{fired_of, acting_of, focus_of};
ghost use Rattle.xf_actions.specs.Parts.{delete_in};
ghost use Rattle.xf_actions.specs.TreeChanges.{delete as deletes, delete_at as deletes_at, cut, deleted_from as deletes_from, deleted as makes_deleted};

use crate::acting::Acting;
use crate::fault::EventFault;
use crate::fired::{Fired, FiredList};
use crate::parts::action_of;
use crate::tell::one;
use crate::world::World;
use xf_base::Items;
use xf_def_forest::{NodeId, NodeList};
use xf_def_syntax::Work;
use xf_def_ui::Focus;

/// Has no effect where its `context` selects nothing.
pub fn delete<W: World>(
    world: &mut W,
    fired: &Fired,
    acting: &Acting,
) -> Result<FiredList, EventFault>
    ensures done { Makes means (map fired_of) (W.state world.new) result (deletes W.profile (acting_of fired.now acting.now) (delete_in (act_at (W.state world.old) acting.now.element)) (W.state world.old)) }
    ensures kept { W.kept world.new ≡ W.kept world.old }
    ensures form { (W.state world.new).form ≡ (W.state world.old).form }
    ensures calls { (W.state world.new).calls ≡ (W.state world.old).calls }
{
    match context(world, fired, acting)? {
        None => Ok(Items::new(world.alloc())),
        Some(focus) => delete_at(world, fired, acting, &focus),
    }
}

fn context<W: World>(world: &W, fired: &Fired, acting: &Acting) -> Result<Option<Focus>, EventFault>
    ensures { Reads means (option_map focus_of) (W.state world.now) result (moved_focus W.profile (acting_of fired.now acting.now) (delete_in (act_at (W.state world.now) acting.now.element)).context (W.state world.now)) }
{
    match action_of(world.form(), acting.element) {
        Some(action) => match &action.work {
            Work::Delete(work) => world.moved(fired, acting, &work.context),
            _ => world.moved(fired, acting, &None),
        },
        None => world.moved(fired, acting, &None),
    }
}

fn delete_at<W: World>(
    world: &mut W,
    fired: &Fired,
    acting: &Acting,
    focus: &Focus,
) -> Result<FiredList, EventFault>
    ensures done { Makes means (map fired_of) (W.state world.new) result (deletes_at W.profile (acting_of fired.now acting.now) (delete_in (act_at (W.state world.old) acting.now.element)) (focus_of focus.now) (W.state world.old)) }
    ensures kept { W.kept world.new ≡ W.kept world.old }
    ensures form { (W.state world.new).form ≡ (W.state world.old).form }
    ensures calls { (W.state world.new).calls ≡ (W.state world.old).calls }
{
    let set = world.bound_set(fired, acting, focus)?;
    let at = place_asked(world, fired, acting, &set)?;
    let nodes = world.planned_delete(&set, at)?;
    deleted(world, &nodes, &set, at)
}

fn place_asked<W: World>(
    world: &W,
    fired: &Fired,
    acting: &Acting,
    set: &NodeList,
) -> Result<Option<i64>, EventFault>
    ensures { Reads means (λ k. k) (W.state world.now) result (at_asked W.profile (acting_of fired.now acting.now) (delete_in (act_at (W.state world.now) acting.now.element)).at set.now (W.state world.now)) }
{
    match action_of(world.form(), acting.element) {
        Some(action) => match &action.work {
            Work::Delete(work) => world.delete_place(fired, acting, &work.at, set),
            _ => world.delete_place(fired, acting, &None, set),
        },
        None => world.delete_place(fired, acting, &None, set),
    }
}

/// All are cut off, the indexes are brought up to date, and the instance of the first is told.
fn deleted<W: World>(
    world: &mut W,
    nodes: &NodeList,
    set: &NodeList,
    at: Option<i64>,
) -> Result<FiredList, EventFault>
    ensures done { Makes means (map fired_of) (W.state world.new) result (makes_deleted W.profile (location_of (W.state world.old).form.decimals set.now at) nodes.now (W.state world.old)) }
    ensures kept { W.kept world.new ≡ W.kept world.old }
    ensures form { (W.state world.new).form ≡ (W.state world.old).form }
    ensures calls { (W.state world.new).calls ≡ (W.state world.old).calls }
{
    match nodes.get(0) {
        None => Ok(Items::new(world.alloc())),
        Some(first) => deleted_from(world, first, nodes, set, at),
    }
}

fn deleted_from<W: World>(
    world: &mut W,
    first: NodeId,
    nodes: &NodeList,
    set: &NodeList,
    at: Option<i64>,
) -> Result<FiredList, EventFault>
    ensures done { Makes means (map fired_of) (W.state world.new) result (deletes_from W.profile (location_of (W.state world.old).form.decimals set.now at) first.number nodes.now (W.state world.old)) }
    ensures kept { W.kept world.new ≡ W.kept world.old }
    ensures form { (W.state world.new).form ≡ (W.state world.old).form }
    ensures calls { (W.state world.new).calls ≡ (W.state world.old).calls }
{
    let instance = world.instance_holding(first);
    detach_all(world, nodes.as_slice())?;
    let none = NodeList::new(world.alloc());
    world.reindex(&none)?;
    match instance {
        None => Ok(Items::new(world.alloc())),
        Some(place) => {
            let event = world.delete_event(place, nodes, set, at)?;
            one(world, event)
        }
    }
}

fn detach_all<W: World>(world: &mut W, nodes: &[NodeId]) -> Result<(), EventFault>
    ensures done { Runs means (W.state world.new) result (in_turn cut (map (λ n. n.number) nodes.now) (W.state world.old)) }
    ensures kept { W.kept world.new ≡ W.kept world.old }
    ensures form { (W.state world.new).form ≡ (W.state world.old).form }
    ensures calls { (W.state world.new).calls ≡ (W.state world.old).calls }
{
    for node in nodes {
        world.detach(*node)?;
    }
    Ok(())
}
