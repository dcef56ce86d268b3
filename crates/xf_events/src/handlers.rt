//! The handlers that an event calls (DOM Level 2 Events, section 1.2; XML Events, section 3).

ghost use Rattle.std.specs.Prelude.{◌≡◌, ◌++◌, ◌||◌, filter, map, reverse, IfOk, OnOk};
ghost use Rattle.xf_def_ui.specs.Calls.{calls as called_by, handlers as all_handlers, hears, is_element, is_phase, may_have, reached};
ghost use Rattle.xf_def_ui.specs.Interface.{Interface, interface_of};
ghost use Rattle.xf_actions.specs.Seen.{fired_of};
ghost use Rattle.xf_events.specs.Handlers as handlers;
ghost use Rattle.xf_events.specs.Listeners.{is_named, seen_listener};

use crate::listeners::{Listener, listeners_among};
use std::alloc::{AllocError, Global};
use xf_actions::Fired;
use xf_base::Items;
use xf_def_syntax::{ElementList, Form, Handler, Phase};
use xf_def_ui::CallList;
use xf_form_elements::ancestors;

/// Handlers that are called, in order.
#[derive(Drop)]
pub(crate) struct Stage {
    pub handlers: ElementList,
    /// Whether one of them stops the event.
    pub stops: bool,
    /// Whether one of them cancels its default action.
    pub cancels: bool,
}

/// A stop on the way of an event.
#[derive(Clone, Copy, Debug)]
pub(crate) struct Stop {
    pub phase: Phase,
    pub observer: u32,
}

/// The handlers that an event calls, and whether its default action is done.
pub fn called(alloc: Global, form: &Form, fired: &Fired) -> Result<CallList, AllocError>
    ensures { IfOk result (λ list. list ≡ called_by (interface_of form.now) (fired_of fired.now).event) }
{
    let named = listeners_among(alloc, form.elements.as_slice(), fired.name.as_str())?;
    let way = way_of(alloc, form, fired)?;
    let mut all = empty(alloc);
    push_reached(alloc, named.as_slice(), fired, way.as_slice(), &mut all)?;
    Ok(CallList {
        handlers: all.handlers,
        with_default: !(fired.is_cancelable && all.cancels),
    })
}

fn empty(alloc: Global) -> Stage
    ensures { result ≡ handlers.none_yet }
{
    Stage {
        handlers: Items::new(alloc),
        stops: false,
        cancels: false,
    }
}

/// The stops of an event: capture from the root down to the parent, the target, and back up where it bubbles.
fn way_of(alloc: Global, form: &Form, fired: &Fired) -> Result<Vec<Stop>, AllocError>
    ensures { IfOk result (λ way. handlers.IsWay (interface_of form.now) (fired_of fired.now).event way.items) }
{
    let around = ancestors(alloc, form, fired.target)?;
    let mut way = Vec::new(alloc);
    push_down(&mut way, around.as_slice())?;
    way.push(Stop {
        phase: Phase::Default,
        observer: fired.target,
    })?;
    if fired.bubbles {
        push_up(&mut way, around.as_slice())?;
    }
    Ok(way)
}

/// Capture at each of these, the last one first.
fn push_down(way: &mut Vec<Stop>, around: &[u32]) -> Result<(), AllocError>
    ensures { OnOk result (way.new.items ≡ way.old.items ++ handlers.stops_at Phase.Capture (reverse around.now)) }
{
    if around.is_empty() {
        return Ok(());
    }
    push_down(way, &around[1..])?;
    way.push(Stop {
        phase: Phase::Capture,
        observer: around[0],
    })?;
    Ok(())
}

/// The way back up through each of these.
fn push_up(way: &mut Vec<Stop>, around: &[u32]) -> Result<(), AllocError>
    ensures { OnOk result (way.new.items ≡ way.old.items ++ handlers.stops_at Phase.Default around.now) }
{
    if around.is_empty() {
        return Ok(());
    }
    way.push(Stop {
        phase: Phase::Default,
        observer: around[0],
    })?;
    push_up(way, &around[1..])
}

/// The handlers at these stops, as far as the first stop at which one of them stops the event, where these are the handlers of its name.
fn push_reached(
    alloc: Global,
    named: &[Listener<'_>],
    fired: &Fired,
    way: &[Stop],
    all: &mut Stage,
) -> Result<(), AllocError>
    ensures { OnOk result ((interface : Interface) → map seen_listener named.now ≡ filter (is_named (fired_of fired.now).event.name) (all_handlers interface) → handlers.Reaches all.old all.new (reached (handlers.stages_at interface (fired_of fired.now).event way.now))) }
{
    if way.is_empty() {
        return Ok(());
    }
    let mut own = empty(alloc);
    push_heard(named, fired, way[0], &mut own)?;
    let stops = own.stops;
    all.cancels = either(all.cancels, own.cancels);
    all.handlers.append(own.handlers)?;
    if stops {
        return Ok(());
    }
    push_reached(alloc, named, fired, &way[1..], all)
}

/// Those of some handlers that hear an event at a stop.
fn push_heard(
    some: &[Listener<'_>],
    fired: &Fired,
    stop: Stop,
    all: &mut Stage,
) -> Result<(), AllocError>
    ensures { OnOk result (handlers.Adds all.old all.new (filter (λ h. hears (fired_of fired.now).event stop.phase stop.observer h.1) (map seen_listener some.now))) }
{
    for listener in some {
        push_handler(listener.handler, listener.element, fired, stop, all)?;
    }
    Ok(())
}

fn push_handler(
    handler: &Handler,
    number: u32,
    fired: &Fired,
    stop: Stop,
    all: &mut Stage,
) -> Result<(), AllocError>
    ensures { OnOk result (handlers.Adds all.old all.new (handlers.one_where (hears (fired_of fired.now).event stop.phase stop.observer handler.now) (number, handler.now))) }
{
    if !hears(fired, stop, handler) {
        return Ok(());
    }
    all.handlers.push(number)?;
    all.stops = either(all.stops, handler.stops);
    all.cancels = either(all.cancels, handler.cancels);
    Ok(())
}

fn hears(fired: &Fired, stop: Stop, handler: &Handler) -> bool
    ensures { result ≡ hears (fired_of fired.now).event stop.phase stop.observer handler.now }
{
    if !handler.event.is(fired.name.as_str()) {
        return false;
    }
    if !is_element(handler.observer, stop.observer) {
        return false;
    }
    if !is_phase(handler.phase, stop.phase) {
        return false;
    }
    may_have(handler.target, fired.target)
}

fn is_element(named: Option<u32>, element: u32) -> bool
    ensures { result ≡ is_element named element }
{
    match named {
        Some(one) => one == element,
        None => false,
    }
}

/// A target that is named has to be that of the event.
fn may_have(named: Option<u32>, target: u32) -> bool
    ensures { result ≡ may_have named target }
{
    match named {
        Some(one) => one == target,
        None => true,
    }
}

fn is_phase(one: Phase, other: Phase) -> bool
    ensures { result ≡ is_phase one other }
{
    match one {
        Phase::Capture => match other {
            Phase::Capture => true,
            Phase::Default => false,
        },
        Phase::Default => match other {
            Phase::Capture => false,
            Phase::Default => true,
        },
    }
}

fn either(one: bool, other: bool) -> bool
    ensures { result ≡ (one || other) }
{
    if one { true } else { other }
}
