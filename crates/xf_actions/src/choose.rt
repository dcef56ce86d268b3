//! The actions that choose a row and a case (XForms 1.1, sections 10.5 and 10.6).

ghost use Rattle.std.specs.Prelude.{◌≡◌, [], ◌∷◌, map, option_map, codes, Ok};
ghost use Rattle.xf_def_machine.specs.Acting.{act_at};
ghost use Rattle.xf_def_machine.specs.Choose.{not_below_zero as at_least_zero};
ghost use Rattle.xf_def_machine.specs.Events.{plainly};
ghost use Rattle.xf_actions.specs.Fault.{means};
ghost use Rattle.xf_actions.specs.Performs.{Runs, Makes, Reads};
ghost use Rattle.xf_actions.specs.Seen.{fired_of, acting_of};
ghost use Rattle.xf_actions.specs.Parts.{index_in};
ghost use Rattle.xf_actions.specs.Chosen.{index_asked as asks_index, index_chosen};
ghost use Rattle.xf_actions.specs.Changed.{toggle as toggles, toggle_in as toggles_in, toggled as makes_toggled};

use crate::acting::Acting;
use crate::fault::EventFault;
use crate::fired::{Fired, FiredList};
use crate::parts::action_of;
use crate::tell::two;
use crate::world::World;
use xf_base::Items;
use xf_def_forest::NodeList;
use xf_def_syntax::Work;

/// The index of the repeat of this number is set. NaN has no effect, and what is below zero is zero.
pub fn set_index<W: World>(
    world: &mut W,
    fired: &Fired,
    acting: &Acting,
    repeat: u32,
) -> Result<(), EventFault>
    ensures done { Runs means (W.state world.new) result (index_chosen W.profile (acting_of fired.now acting.now) repeat (index_in (act_at (W.state world.old) acting.now.element)) (W.state world.old)) }
    ensures kept { W.kept world.new ≡ W.kept world.old }
    ensures form { (W.state world.new).form ≡ (W.state world.old).form }
    ensures calls { (W.state world.new).calls ≡ (W.state world.old).calls }
{
    let element = world.repeat_element(repeat);
    match world.named_copy(element)? {
        None => Ok(()),
        Some(_rows) => match index_asked(world, fired, acting)? {
            None => Ok(()),
            Some(index) => world.set_index(acting.model, element, index),
        },
    }
}

fn index_asked<W: World>(
    world: &W,
    fired: &Fired,
    acting: &Acting,
) -> Result<Option<u64>, EventFault>
    ensures { Reads means (λ k. k) (W.state world.now) result (asks_index W.profile (acting_of fired.now acting.now) (index_in (act_at (W.state world.now) acting.now.element)) (W.state world.now)) }
{
    match action_of(world.form(), acting.element) {
        Some(action) => match &action.work {
            Work::SetIndex(_, expr) => {
                let number = world.whole(fired, acting, &acting.focus, expr)?;
                Ok(not_below_zero(number))
            }
            _ => Ok(None),
        },
        None => Ok(None),
    }
}

fn not_below_zero(number: Option<i64>) -> Option<u64>
    ensures { result ≡ option_map at_least_zero number }
{
    match number {
        None => None,
        Some(k) => { if k < 0 { Some(0) } else { Some(k as u64) } }
    }
}

/// To the case that is selected it has no effect.
pub fn toggle<W: World>(world: &mut W, acting: &Acting, case: u32) -> Result<FiredList, EventFault>
    ensures done { Makes means (map fired_of) (W.state world.new) result (toggles acting.now.model case (W.state world.old)) }
    ensures kept { W.kept world.new ≡ W.kept world.old }
    ensures form { (W.state world.new).form ≡ (W.state world.old).form }
    ensures calls { (W.state world.new).calls ≡ (W.state world.old).calls }
{
    match world.parent(case) {
        None => Ok(Items::new(world.alloc())),
        Some(parent) => toggle_in(world, acting.model, case, parent),
    }
}

fn toggle_in<W: World>(
    world: &mut W,
    model: u32,
    case: u32,
    parent: u32,
) -> Result<FiredList, EventFault>
    ensures done { Makes means (map fired_of) (W.state world.new) result (toggles_in model case parent (W.state world.old)) }
    ensures kept { W.kept world.new ≡ W.kept world.old }
    ensures form { (W.state world.new).form ≡ (W.state world.old).form }
    ensures calls { (W.state world.new).calls ≡ (W.state world.old).calls }
{
    let switch = world.switch_number(parent);
    let place = world.place_of_case(parent, case);
    if place == world.selected(switch) {
        return Ok(Items::new(world.alloc()));
    }
    match world.named_copy(case)? {
        None => Ok(Items::new(world.alloc())),
        Some(rows) => toggled(world, model, switch, place, case, &rows),
    }
}

/// The case changes, which flags the refresh.
fn toggled<W: World>(
    world: &mut W,
    model: u32,
    switch: u32,
    place: usize,
    case: u32,
    rows: &NodeList,
) -> Result<FiredList, EventFault>
    ensures done { Makes means (map fired_of) (W.state world.new) result (makes_toggled model switch place case rows.now (W.state world.old)) }
    ensures kept { W.kept world.new ≡ W.kept world.old }
    ensures form { (W.state world.new).form ≡ (W.state world.old).form }
    ensures calls { (W.state world.new).calls ≡ (W.state world.old).calls }
{
    let before = world.case_at(switch, world.selected(switch));
    let events = case_events(world, before, case, rows)?;
    world.set_case(switch, place);
    world.flag_refresh(model);
    Ok(events)
}

/// The old case is told, and then the new one.
fn case_events<W: World>(
    world: &W,
    before: u32,
    case: u32,
    rows: &NodeList,
) -> Result<FiredList, EventFault>
    ensures { Reads means (map fired_of) (W.state world.now) result (Ok (plainly (codes "xforms-deselect") before rows.now ∷ plainly (codes "xforms-select") case rows.now ∷ [])) }
{
    let deselect = world.event("xforms-deselect", true, true, before, rows)?;
    let select = world.event("xforms-select", true, true, case, rows)?;
    two(world, deselect, select)
}
