//! The action insert (XForms 1.1, section 10.3).

ghost use Rattle.std.specs.Prelude.{◌≡◌, map, zip, get_or, option_map, Ok};
ghost use Rattle.xf_def_machine.specs.Flow.{in_turn};
ghost use Rattle.xf_def_machine.specs.Acting.{act_at};
ghost use Rattle.xf_def_machine.specs.Tables.{insert_by};
ghost use Rattle.xf_def_machine.specs.Insert.{moved_focus, place_asked, copies_of, without_one, put_copy as puts_copy};
ghost use Rattle.xf_actions.specs.Fault.{means};
ghost use Rattle.xf_actions.specs.Performs.{Runs, Makes, Reads};
ghost use Rattle.xf_actions.specs.Seen.{fired_of, acting_of, focus_of, place_of, inserting_of};
ghost use Rattle.xf_actions.specs.Parts.{insert_in};
ghost use Rattle.xf_actions.specs.Inserting.{planned};
ghost use Rattle.xf_actions.specs.TreeChanges.{insert as inserts, insert_at as inserts_at, inserted_by, inserted_in as inserts_in};

use crate::acting::Acting;
use crate::fault::EventFault;
use crate::fired::{Fired, FiredList};
use crate::parts::action_of;
use crate::place::{Inserting, Place};
use crate::tell::one;
use crate::world::World;
use xf_base::Items;
use xf_def_forest::{NodeId, NodeList};
use xf_def_syntax::{InsertWork, Work};
use xf_def_ui::Focus;

/// Has no effect where its `context` selects nothing.
pub fn insert<W: World>(
    world: &mut W,
    fired: &Fired,
    acting: &Acting,
) -> Result<FiredList, EventFault>
    ensures done { Makes means (map fired_of) (W.state world.new) result (inserts W.profile (acting_of fired.now acting.now) (insert_in (act_at (W.state world.old) acting.now.element)) (W.state world.old)) }
    ensures kept { W.kept world.new ≡ W.kept world.old }
    ensures form { (W.state world.new).form ≡ (W.state world.old).form }
    ensures calls { (W.state world.new).calls ≡ (W.state world.old).calls }
{
    match context(world, fired, acting)? {
        None => Ok(Items::new(world.alloc())),
        Some(focus) => insert_at(world, fired, acting, &focus),
    }
}

fn context<W: World>(world: &W, fired: &Fired, acting: &Acting) -> Result<Option<Focus>, EventFault>
    ensures { Reads means (option_map focus_of) (W.state world.now) result (moved_focus W.profile (acting_of fired.now acting.now) (insert_in (act_at (W.state world.now) acting.now.element)).context (W.state world.now)) }
{
    match action_of(world.form(), acting.element) {
        Some(action) => match &action.work {
            Work::Insert(work) => world.moved(fired, acting, &work.context),
            _ => world.moved(fired, acting, &None),
        },
        None => world.moved(fired, acting, &None),
    }
}

fn insert_at<W: World>(
    world: &mut W,
    fired: &Fired,
    acting: &Acting,
    focus: &Focus,
) -> Result<FiredList, EventFault>
    ensures done { Makes means (map fired_of) (W.state world.new) result (inserts_at W.profile (acting_of fired.now acting.now) (insert_in (act_at (W.state world.old) acting.now.element)) (focus_of focus.now) (W.state world.old)) }
    ensures kept { W.kept world.new ≡ W.kept world.old }
    ensures form { (W.state world.new).form ≡ (W.state world.old).form }
    ensures calls { (W.state world.new).calls ≡ (W.state world.old).calls }
{
    let inserting = inserting(world, fired, acting, focus)?;
    inserted(world, &inserting)
}

fn inserting<W: World>(
    world: &W,
    fired: &Fired,
    acting: &Acting,
    focus: &Focus,
) -> Result<Inserting, EventFault>
    ensures { Reads means inserting_of (W.state world.now) result (planned W.profile (acting_of fired.now acting.now) (insert_in (act_at (W.state world.now) acting.now.element)) (focus_of focus.now) (W.state world.now)) }
{
    let none = InsertWork {
        context: None,
        origin: None,
        at: None,
        is_before: false,
    };
    match action_of(world.form(), acting.element) {
        Some(action) => match &action.work {
            Work::Insert(work) => inserting_by(world, fired, acting, work, focus),
            _ => inserting_by(world, fired, acting, &none, focus),
        },
        None => inserting_by(world, fired, acting, &none, focus),
    }
}

fn inserting_by<W: World>(
    world: &W,
    fired: &Fired,
    acting: &Acting,
    work: &InsertWork,
    focus: &Focus,
) -> Result<Inserting, EventFault>
    ensures { Reads means inserting_of (W.state world.now) result (planned W.profile (acting_of fired.now acting.now) (insert_by work.now) (focus_of focus.now) (W.state world.now)) }
{
    let set = world.bound_set(fired, acting, focus)?;
    let origin = world.origin(fired, acting, focus, &work.origin, &set)?;
    let at = place(world, fired, acting, work, &origin, &set)?;
    let location = world.insert_location(focus, &set, at)?;
    let places = world.planned_insert(work, focus, &set, &origin, at)?;
    Ok(Inserting {
        is_before: work.is_before,
        location,
        places,
    })
}

/// The place that `at` names. Where there is no origin node it is not evaluated.
fn place<W: World>(
    world: &W,
    fired: &Fired,
    acting: &Acting,
    work: &InsertWork,
    origin: &NodeList,
    set: &NodeList,
) -> Result<Option<i64>, EventFault>
    ensures { Reads means (λ k. k) (W.state world.now) result (place_asked W.profile (acting_of fired.now acting.now) (insert_by work.now).at origin.now set.now (W.state world.now)) }
{
    match origin.get(0) {
        None => Ok(None),
        Some(_) => world.insert_place(fired, acting, &work.at, set),
    }
}

/// The copies are made and go to their places, the indexes are brought up to date, and the instance is told.
fn inserted<W: World>(world: &mut W, inserting: &Inserting) -> Result<FiredList, EventFault>
    ensures done { Makes means (map fired_of) (W.state world.new) result (inserted_by W.profile (inserting_of inserting.now) (W.state world.old)) }
    ensures kept { W.kept world.new ≡ W.kept world.old }
    ensures form { (W.state world.new).form ≡ (W.state world.old).form }
    ensures calls { (W.state world.new).calls ≡ (W.state world.old).calls }
{
    match inserting.places.get(0) {
        None => Ok(Items::new(world.alloc())),
        Some(first) => inserted_in(world, first.parent, inserting),
    }
}

fn inserted_in<W: World>(
    world: &mut W,
    parent: NodeId,
    inserting: &Inserting,
) -> Result<FiredList, EventFault>
    ensures done { Makes means (map fired_of) (W.state world.new) result (inserts_in W.profile inserting.now.is_before inserting.now.location parent.number (map place_of inserting.now.places) (W.state world.old)) }
    ensures kept { W.kept world.new ≡ W.kept world.old }
    ensures form { (W.state world.new).form ≡ (W.state world.old).form }
    ensures calls { (W.state world.new).calls ≡ (W.state world.old).calls }
{
    let instance = world.instance_holding(parent);
    let tops = copies(world, inserting.places.as_slice())?;
    put_copies(world, inserting.places.as_slice(), &tops)?;
    world.reindex(&tops)?;
    match instance {
        None => Ok(Items::new(world.alloc())),
        Some(place) => {
            let event = world.insert_event(place, inserting, &tops)?;
            one(world, event)
        }
    }
}

/// A copy of the origin of each place.
fn copies<W: World>(world: &mut W, places: &[Place]) -> Result<NodeList, EventFault>
    ensures done { Makes means (λ tops. tops) (W.state world.new) result (copies_of W.profile (map (λ q. q.origin) (map place_of places.now)) (W.state world.old)) }
    ensures kept { W.kept world.new ≡ W.kept world.old }
    ensures form { (W.state world.new).form ≡ (W.state world.old).form }
    ensures calls { (W.state world.new).calls ≡ (W.state world.old).calls }
{
    let mut tops = NodeList::new(world.alloc());
    for place in places {
        let top = world.copy(place.origin)?;
        match tops.push(top) {
            Ok(()) => continue,
            Err(_) => return Err(EventFault::memory()),
        }
    }
    Ok(tops)
}

/// One after the other goes to its place.
fn put_copies<W: World>(world: &mut W, places: &[Place], tops: &NodeList) -> Result<(), EventFault>
    ensures done { Runs means (W.state world.new) result (in_turn (puts_copy W.profile tops.now) (zip (map place_of places.now) tops.now) (W.state world.old)) }
    ensures kept { W.kept world.new ≡ W.kept world.old }
    ensures form { (W.state world.new).form ≡ (W.state world.old).form }
    ensures calls { (W.state world.new).calls ≡ (W.state world.old).calls }
{
    for at in 0..places.len() {
        match tops.get(at) {
            Some(top) => {
                put_copy(world, &places[at], tops, top)?;
                continue;
            }
            None => return Ok(()),
        }
    }
    Ok(())
}

/// Where the node that it replaces has gone, be it an earlier copy.
fn put_copy<W: World>(
    world: &mut W,
    place: &Place,
    tops: &NodeList,
    top: NodeId,
) -> Result<(), EventFault>
    ensures done { Runs means (W.state world.new) result (puts_copy W.profile tops.now (place_of place.now, top.number) (W.state world.old)) }
    ensures kept { W.kept world.new ≡ W.kept world.old }
    ensures form { (W.state world.new).form ≡ (W.state world.old).form }
    ensures calls { (W.state world.new).calls ≡ (W.state world.old).calls }
{
    detach_some(world, place.replaces)?;
    detach_some(world, earlier_copy(tops, place.again))?;
    world.attach(top, place.parent, place.place)
}

fn detach_some<W: World>(world: &mut W, node: Option<NodeId>) -> Result<(), EventFault>
    ensures done { Runs means (W.state world.new) result (Ok (without_one (option_map (λ n. n.number) node) (W.state world.old))) }
    ensures kept { W.kept world.new ≡ W.kept world.old }
    ensures form { (W.state world.new).form ≡ (W.state world.old).form }
    ensures calls { (W.state world.new).calls ≡ (W.state world.old).calls }
{
    match node {
        None => Ok(()),
        Some(node) => world.detach(node),
    }
}

/// Of the copies, the one of an earlier place.
fn earlier_copy(tops: &NodeList, place: Option<usize>) -> Option<NodeId>
    ensures { option_map (λ n. n.number) result ≡ option_map (λ k. get_or tops.now k 0) place }
{
    match place {
        None => None,
        Some(at) => match tops.get(at) {
            Some(node) => Some(node),
            None => Some(NodeId {
                number: 0,
                place: 0,
            }),
        },
    }
}
