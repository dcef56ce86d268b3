//! The actions that only tell events (XForms 1.1, sections 10.8 to 10.13), and lists of events.

ghost use Rattle.std.specs.Prelude.{◌≡◌, [], ◌∷◌, map, codes, Ok};
ghost use Rattle.xf_def_machine.specs.Acting.{act_at};
ghost use Rattle.xf_actions.specs.Fault.{means};
ghost use Rattle.xf_actions.specs.Performs.{Reads};
ghost use Rattle.xf_actions.specs.Seen.{fired_of};
ghost use Rattle.xf_actions.specs.Parts.{work_in};
ghost use Rattle.xf_actions.specs.Changed.{only_tells, dispatched as tells_dispatched, sent as tells_sent, on_model as tells_model};

use crate::acting::Acting;
use crate::fault::EventFault;
use crate::fired::{Fired, FiredList};
use crate::parts::action_of;
use crate::world::World;
use xf_base::Items;
use xf_def_syntax::{DispatchWork, Work};

/// The events of a dispatch, a send, or an event to the model in scope.
pub fn told_events<W: World>(world: &W, acting: &Acting) -> Result<FiredList, EventFault>
    ensures { Reads means (λ l. (map fired_of l, W.state world.now)) (W.state world.now) result (only_tells acting.now.model (work_in (act_at (W.state world.now) acting.now.element)) (W.state world.now)) }
{
    match action_of(world.form(), acting.element) {
        Some(action) => match &action.work {
            Work::Dispatch(work) => dispatched(world, work),
            Work::Send(target) => sent(world, *target),
            Work::Reset => on_model(world, "xforms-reset", acting.model),
            Work::Rebuild => on_model(world, "xforms-rebuild", acting.model),
            Work::Recalculate => on_model(world, "xforms-recalculate", acting.model),
            Work::Revalidate => on_model(world, "xforms-revalidate", acting.model),
            Work::Refresh => on_model(world, "xforms-refresh", acting.model),
            _ => Ok(Items::new(world.alloc())),
        },
        None => Ok(Items::new(world.alloc())),
    }
}

fn dispatched<W: World>(world: &W, work: &DispatchWork) -> Result<FiredList, EventFault>
    ensures { Reads means (λ l. (map fired_of l, W.state world.now)) (W.state world.now) result (tells_dispatched work.now (W.state world.now)) }
{
    match world.named_copy(work.target)? {
        None => Ok(Items::new(world.alloc())),
        Some(rows) => {
            let name = work.name.as_str();
            let event = world.event(name, work.bubbles, work.is_cancelable, work.target, &rows)?;
            one(world, event)
        }
    }
}

/// To the submission of this number, where there is one.
pub fn sent<W: World>(world: &W, target: Option<u32>) -> Result<FiredList, EventFault>
    ensures { Reads means (λ l. (map fired_of l, W.state world.now)) (W.state world.now) result (tells_sent target (W.state world.now)) }
{
    match target {
        None => Ok(Items::new(world.alloc())),
        Some(submission) => {
            let event = world.event_at("xforms-submit", world.submission_element(submission))?;
            one(world, event)
        }
    }
}

fn on_model<W: World>(world: &W, name: &str, model: u32) -> Result<FiredList, EventFault>
    ensures { Reads means (λ l. (map fired_of l, W.state world.now)) (W.state world.now) result (tells_model name.now model (W.state world.now)) }
{
    let event = world.event_at(name, world.model_element(model))?;
    one(world, event)
}

/// A list of one event.
pub fn one<W: World>(world: &W, fired: Fired) -> Result<FiredList, EventFault>
    ensures { Reads means (map fired_of) (W.state world.now) result (Ok (fired_of fired ∷ [])) }
{
    let mut events = Items::new(world.alloc());
    match events.push(fired) {
        Ok(()) => Ok(events),
        Err(_) => Err(EventFault::memory()),
    }
}

/// A list of two events, the one told first before the other.
pub fn two<W: World>(world: &W, first: Fired, second: Fired) -> Result<FiredList, EventFault>
    ensures { Reads means (map fired_of) (W.state world.now) result (Ok (fired_of first ∷ fired_of second ∷ [])) }
{
    let mut events = one(world, first)?;
    match events.push(second) {
        Ok(()) => Ok(events),
        Err(_) => Err(EventFault::memory()),
    }
}
