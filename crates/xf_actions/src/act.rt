//! Dispatch (DOM Level 2 Events, section 1.2) and actions (XForms 1.1, section 10): by recursion on the depth of dispatch that is left, in it
//! on the parts that are left, and in loops on the turns that are left.

ghost use Rattle.std.specs.Prelude.{◌≡◌, false, map, option_map};
ghost use Rattle.xf_def_machine.specs.Flow.{in_turn, where_some};
ghost use Rattle.xf_def_machine.specs.Acting.{act_at};
ghost use Rattle.xf_def_machine.specs.Act.{act_within};
ghost use Rattle.xf_def_machine.specs.Default.{default};
ghost use Rattle.xf_def_machine.specs.Update.{update as updated};
ghost use Rattle.xf_def_machine.specs.Dispatch.{handle as handles, after_all, dispatch as dispatches};
ghost use Rattle.xf_store.specs.Called.{Called};
ghost use Rattle.xf_actions.specs.Fault.{means};
ghost use Rattle.xf_actions.specs.Performs.{RunsOver};
ghost use Rattle.xf_actions.specs.Seen.{fired_of, acting_of, ending_of};
ghost use Rattle.xf_actions.specs.Defaulted.{ended};
ghost use Rattle.xf_actions.specs.Parts.{once_done, acted};

use crate::acting::Acting;
use crate::defaults::default_action;
use crate::fault::EventFault;
use crate::fired::{Ending, Fired};
use crate::parts::{holds_condition, holds_repetition, is_action, is_block, is_repeated};
use crate::round::begin_round;
use crate::work::change;
use crate::world::World;
use xf_store::Store;

/// Dispatches an event, where so many dispatches may stand one in the other. Where no action and no update is running, an update falls due
/// after each handler and after the default action.
#[cycle(act)]
pub fn dispatch<W: World, S: Store>(
    world: &mut W,
    fired: &Fired,
    depth: u32,
    is_idle: bool,
    store: &mut S,
) -> Result<(), EventFault>
    ensures done { RunsOver means (W.state world.new) result (λ answers. dispatches W.profile answers depth is_idle (fired_of fired.now) (W.state world.old)) }
    ensures store { Called (S.calls store.old, S.to_come store.old) (S.calls store.new, S.to_come store.new) (W.state world.old).calls (W.state world.new).calls }
    ensures kept { W.kept world.new ≡ W.kept world.old }
    ensures form { (W.state world.new).form ≡ (W.state world.old).form }
{
    world.spend()?;
    if depth == 0 {
        return Err(EventFault::depth());
    }
    let called = world.calls(fired)?;
    handle_all(
        world,
        fired,
        called.handlers.as_slice(),
        depth - 1,
        is_idle,
        store,
    )?;
    if called.with_default {
        conclude(world, fired, depth - 1, is_idle, store)
    } else {
        Ok(())
    }
}

#[cycle(act)]
fn handle_all<W: World, S: Store>(
    world: &mut W,
    fired: &Fired,
    handlers: &[u32],
    depth: u32,
    is_idle: bool,
    store: &mut S,
) -> Result<(), EventFault>
    ensures done { RunsOver means (W.state world.new) result (λ answers. in_turn (handles W.profile (dispatches W.profile answers depth) is_idle (fired_of fired.now)) handlers.now (W.state world.old)) }
    ensures store { Called (S.calls store.old, S.to_come store.old) (S.calls store.new, S.to_come store.new) (W.state world.old).calls (W.state world.new).calls }
    ensures kept { W.kept world.new ≡ W.kept world.old }
    ensures form { (W.state world.new).form ≡ (W.state world.old).form }
{
    for handler in handlers {
        handle(world, fired, *handler, depth, is_idle, store)?;
    }
    Ok(())
}

/// A handler acts, and where none is running the update after it.
#[cycle(act)]
fn handle<W: World, S: Store>(
    world: &mut W,
    fired: &Fired,
    handler: u32,
    depth: u32,
    is_idle: bool,
    store: &mut S,
) -> Result<(), EventFault>
    ensures done { RunsOver means (W.state world.new) result (λ answers. handles W.profile (dispatches W.profile answers depth) is_idle (fired_of fired.now) handler (W.state world.old)) }
    ensures store { Called (S.calls store.old, S.to_come store.old) (S.calls store.new, S.to_come store.new) (W.state world.old).calls (W.state world.new).calls }
    ensures kept { W.kept world.new ≡ W.kept world.old }
    ensures form { (W.state world.new).form ≡ (W.state world.old).form }
{
    let left = world.form().elements.len();
    act(world, fired, handler, depth, left, store)?;
    if is_idle {
        update(world, depth, store)
    } else {
        Ok(())
    }
}

/// The action that is this element, of which at most so many stand one in the other.
#[cycle(act)]
fn act<W: World, S: Store>(
    world: &mut W,
    fired: &Fired,
    element: u32,
    depth: u32,
    left: usize,
    store: &mut S,
) -> Result<(), EventFault>
    ensures done { RunsOver means (W.state world.new) result (λ answers. act_within left W.profile (dispatches W.profile answers depth false) (fired_of fired.now) element (W.state world.old)) }
    ensures store { Called (S.calls store.old, S.to_come store.old) (S.calls store.new, S.to_come store.new) (W.state world.old).calls (W.state world.new).calls }
    ensures kept { W.kept world.new ≡ W.kept world.old }
    ensures form { (W.state world.new).form ≡ (W.state world.old).form }
{
    if left == 0 || !is_action(world, element) {
        return Ok(());
    }
    match world.acting(fired, element)? {
        None => Ok(()),
        Some(acting) => repeat(world, fired, &acting, depth, left - 1, store),
    }
}

/// As often as its `while` holds: each test spends a turn.
#[cycle(act)]
fn repeat<W: World, S: Store>(
    world: &mut W,
    fired: &Fired,
    acting: &Acting,
    depth: u32,
    left: usize,
    store: &mut S,
) -> Result<(), EventFault>
    ensures done { RunsOver means (W.state world.new) result (λ answers. acted W.profile (dispatches W.profile answers depth false) (act_within left W.profile (dispatches W.profile answers depth false) (fired_of fired.now)) (acting_of fired.now acting.now) (act_at (W.state world.old) acting.now.element) (W.state world.old)) }
    ensures store { Called (S.calls store.old, S.to_come store.old) (S.calls store.new, S.to_come store.new) (W.state world.old).calls (W.state world.new).calls }
    ensures kept { W.kept world.new ≡ W.kept world.old }
    ensures form { (W.state world.new).form ≡ (W.state world.old).form }
{
    if !is_repeated(world, acting.element) {
        return once(world, fired, acting, depth, left, store);
    }
    let most = world.turns() as u64 + 1;
    for test in 0..most {
        world.spend()?;
        if !holds_repetition(world, fired, acting)? {
            return Ok(());
        }
        once(world, fired, acting, depth, left, store)?;
    }
    Err(EventFault::budget())
}

#[cycle(act)]
fn once<W: World, S: Store>(
    world: &mut W,
    fired: &Fired,
    acting: &Acting,
    depth: u32,
    left: usize,
    store: &mut S,
) -> Result<(), EventFault>
    ensures done { RunsOver means (W.state world.new) result (λ answers. once_done W.profile (dispatches W.profile answers depth false) (act_within left W.profile (dispatches W.profile answers depth false) (fired_of fired.now)) (acting_of fired.now acting.now) (act_at (W.state world.old) acting.now.element) (W.state world.old)) }
    ensures store { Called (S.calls store.old, S.to_come store.old) (S.calls store.new, S.to_come store.new) (W.state world.old).calls (W.state world.new).calls }
    ensures kept { W.kept world.new ≡ W.kept world.old }
    ensures form { (W.state world.new).form ≡ (W.state world.old).form }
{
    if !holds_condition(world, fired, acting)? {
        return Ok(());
    }
    if is_block(world, acting.element) {
        let parts = world.actions(acting.element)?;
        return act_all(world, fired, parts.as_slice(), depth, left, store);
    }
    let events = change(world, fired, acting)?;
    tell_all(world, events.as_slice(), depth, false, store)
}

#[cycle(act)]
fn act_all<W: World, S: Store>(
    world: &mut W,
    fired: &Fired,
    parts: &[u32],
    depth: u32,
    left: usize,
    store: &mut S,
) -> Result<(), EventFault>
    ensures done { RunsOver means (W.state world.new) result (λ answers. in_turn (act_within left W.profile (dispatches W.profile answers depth false) (fired_of fired.now)) parts.now (W.state world.old)) }
    ensures store { Called (S.calls store.old, S.to_come store.old) (S.calls store.new, S.to_come store.new) (W.state world.old).calls (W.state world.new).calls }
    ensures kept { W.kept world.new ≡ W.kept world.old }
    ensures form { (W.state world.new).form ≡ (W.state world.old).form }
{
    for part in parts {
        act(world, fired, *part, depth, left, store)?;
    }
    Ok(())
}

/// Events are told one after the other.
#[cycle(act)]
fn tell_all<W: World, S: Store>(
    world: &mut W,
    events: &[Fired],
    depth: u32,
    is_idle: bool,
    store: &mut S,
) -> Result<(), EventFault>
    ensures done { RunsOver means (W.state world.new) result (λ answers. in_turn (dispatches W.profile answers depth is_idle) (map fired_of events.now) (W.state world.old)) }
    ensures store { Called (S.calls store.old, S.to_come store.old) (S.calls store.new, S.to_come store.new) (W.state world.old).calls (W.state world.new).calls }
    ensures kept { W.kept world.new ≡ W.kept world.old }
    ensures form { (W.state world.new).form ≡ (W.state world.old).form }
{
    for fired in events {
        dispatch(world, fired, depth, is_idle, store)?;
    }
    Ok(())
}

/// Rounds until nothing is due: each spends a turn.
#[cycle(act)]
pub fn update<W: World, S: Store>(
    world: &mut W,
    depth: u32,
    store: &mut S,
) -> Result<(), EventFault>
    ensures done { RunsOver means (W.state world.new) result (λ answers. updated W.profile (dispatches W.profile answers depth false) (W.state world.old)) }
    ensures store { Called (S.calls store.old, S.to_come store.old) (S.calls store.new, S.to_come store.new) (W.state world.old).calls (W.state world.new).calls }
    ensures kept { W.kept world.new ≡ W.kept world.old }
    ensures form { (W.state world.new).form ≡ (W.state world.old).form }
{
    let most = world.turns() as u64 + 1;
    for round in 0..most {
        if !world.is_due() {
            return Ok(());
        }
        let events = begin_round(world)?;
        tell_all(world, events.as_slice(), depth, false, store)?;
    }
    Err(EventFault::budget())
}

/// The default action of an event, and where none is running the update after it.
#[cycle(act)]
fn conclude<W: World, S: Store>(
    world: &mut W,
    fired: &Fired,
    depth: u32,
    is_idle: bool,
    store: &mut S,
) -> Result<(), EventFault>
    ensures done { RunsOver means (W.state world.new) result (λ answers. after_all W.profile answers (dispatches W.profile answers depth) is_idle (fired_of fired.now) (W.state world.old)) }
    ensures store { Called (S.calls store.old, S.to_come store.old) (S.calls store.new, S.to_come store.new) (W.state world.old).calls (W.state world.new).calls }
    ensures kept { W.kept world.new ≡ W.kept world.old }
    ensures form { (W.state world.new).form ≡ (W.state world.old).form }
{
    act_by_default(world, fired, depth, is_idle, store)?;
    if is_idle {
        update(world, depth, store)
    } else {
        Ok(())
    }
}

#[cycle(act)]
fn act_by_default<W: World, S: Store>(
    world: &mut W,
    fired: &Fired,
    depth: u32,
    is_idle: bool,
    store: &mut S,
) -> Result<(), EventFault>
    ensures done { RunsOver means (W.state world.new) result (λ answers. default W.profile answers (dispatches W.profile answers depth is_idle) (fired_of fired.now) (W.state world.old)) }
    ensures store { Called (S.calls store.old, S.to_come store.old) (S.calls store.new, S.to_come store.new) (W.state world.old).calls (W.state world.new).calls }
    ensures kept { W.kept world.new ≡ W.kept world.old }
    ensures form { (W.state world.new).form ≡ (W.state world.old).form }
{
    let told = default_action(world, fired, store)?;
    tell_all(world, told.events.as_slice(), depth, is_idle, store)?;
    tell_end(world, &told.ending, depth, is_idle, store)
}

/// The end of a submission is told, where there is one.
#[cycle(act)]
fn tell_end<W: World, S: Store>(
    world: &mut W,
    ending: &Option<Ending>,
    depth: u32,
    is_idle: bool,
    store: &mut S,
) -> Result<(), EventFault>
    ensures done { RunsOver means (W.state world.new) result (λ answers. where_some (option_map (ending_of (W.state world.old).form) ending.now) (ended (dispatches W.profile answers depth is_idle)) (W.state world.old)) }
    ensures store { Called (S.calls store.old, S.to_come store.old) (S.calls store.new, S.to_come store.new) (W.state world.old).calls (W.state world.new).calls }
    ensures kept { W.kept world.new ≡ W.kept world.old }
    ensures form { (W.state world.new).form ≡ (W.state world.old).form }
{
    match ending {
        None => Ok(()),
        Some(ending) => match world.end_event(ending)? {
            None => Ok(()),
            Some(fired) => dispatch(world, &fired, depth, is_idle, store),
        },
    }
}
