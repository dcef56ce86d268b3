//! The behaviours of models (XForms 1.1, sections 4.3.1 to 4.3.4), and what is asked of models and nodes.

ghost use Rattle.std.specs.Prelude.{◌≡◌, ◌<◌, length, map, Ok, Some, IfErr, IfOk};
ghost use Rattle.std.specs.Bool.{OnTrue};
ghost use Rattle.xf_controls.specs.Seen.{seen_notification};
ghost use Rattle.xf_def_machine.specs.Behave as behave;
ghost use Rattle.xf_def_machine.specs.Behave.{model_at};
ghost use Rattle.xf_def_machine.specs.Events.{told_by};
ghost use Rattle.xf_def_machine.specs.Primitives.{in_model, refresh_due, set_text as text_set, spend as spent};
ghost use Rattle.xf_def_machine.specs.Properties.{readonly_in};
ghost use Rattle.xf_def_machine.specs.Refusal.{budget};
ghost use Rattle.xf_def_machine.specs.State.{Flags};
ghost use Rattle.xf_def_machine.specs.Update as update;
ghost use Rattle.xf_actions.specs.Performs.{Makes, Reads, Runs};
ghost use Rattle.xf_actions.specs.Seen.{fired_of};
ghost use Rattle.xf_actions.specs.Texts.{settable};
ghost use Rattle.xf_actions.specs.Told.{cleared_by, is_set, refreshed};
ghost use Rattle.xf_def_form.specs.Formed.{profile};
ghost use Rattle.xf_engine_state.specs.Calls.{Refreshes};
ghost use Rattle.xf_engine_state.specs.Flags.{flag_of};
ghost use Rattle.xf_actions.specs.Fault.{means};
ghost use Rattle.xf_engine_world.specs.State.{kept_of, state_of};

use crate::fault::{as_event, event_fault};
use crate::form_world::FormWorld;
use std::alloc::{AllocError, Global};
use xf_actions::{EventFault, Fired, FiredList, Flag};
use xf_controls::{Notification, NotificationList};
use xf_def_forest::NodeId;
use xf_def_machine::Refusal;
use xf_engine_state::{Flag as WorkFlag, WorkFault};
use xf_events::event;

/// Spends a turn, where one is left.
pub(crate) fn spend(world: &mut FormWorld) -> Result<(), EventFault>
    ensures done { Runs means (state_of world.new) result (spent (state_of world.old)) }
    ensures cause { IfErr result (λ fault. means fault ≡ Some budget) }
    ensures kept { kept_of world.new ≡ kept_of world.old }
    ensures form { (state_of world.new).form ≡ (state_of world.old).form }
    ensures calls { (state_of world.new).calls ≡ (state_of world.old).calls }
{
    world.work.same_form();
    let spent = world.work.spend();
    world.work.same_form();
    match spent {
        Ok(()) => Ok(()),
        Err(_) => Err(EventFault::Refused(Refusal::Budget)),
    }
}

/// Whether a behaviour of one of the models is due.
pub(crate) fn is_due(world: &FormWorld) -> bool
    ensures { result ≡ update.is_due (state_of world.now) }
{
    world.work.is_due()
}

/// Whether the refresh of one of the models is due.
pub(crate) fn is_refresh_due(world: &FormWorld) -> bool
    ensures { result ≡ update.is_refresh_due (state_of world.now) }
{
    world.work.is_refresh_due()
}

/// How many models there are.
pub(crate) fn model_count(world: &FormWorld) -> u32
    ensures { result ≡ length (state_of world.now).models }
{
    world.work.model_count()
}

/// Whether a behaviour of a model is due: of one that is not there none is.
pub(crate) fn is_flagged(world: &FormWorld, model: u32, flag: Flag) -> bool
    ensures { result ≡ is_set flag (model_at (state_of world.now) model).flags }
{
    if model >= world.work.model_count() {
        return false;
    }
    world.work.is_flagged(model, in_work(flag))
}

fn in_work(flag: Flag) -> WorkFlag
    ensures { (f : Flags) → flag_of result f ≡ is_set flag f }
{
    match flag {
        Flag::Rebuild => WorkFlag::Rebuild,
        Flag::Recalculate => WorkFlag::Recalculate,
        Flag::Revalidate => WorkFlag::Revalidate,
        Flag::Refresh => WorkFlag::Refresh,
    }
}

/// Whether a model is there and built, as each is once the form is constructed.
fn is_there(world: &FormWorld, model: u32) -> bool
    ensures there { OnTrue result (model < length world.now.work.now.models) }
    ensures built { OnTrue result (model < world.now.work.built) }
{
    if model >= world.work.model_count() {
        return false;
    }
    (model as u64) < world.work.built()
}

/// Applies the binds of a model.
pub(crate) fn rebuild(world: &mut FormWorld, model: u32) -> Result<(), EventFault>
    ensures done { Runs means (state_of world.new) result (behave.rebuild profile model (state_of world.old)) }
    ensures kept { kept_of world.new ≡ kept_of world.old }
    ensures form { (state_of world.new).form ≡ (state_of world.old).form }
    ensures calls { (state_of world.new).calls ≡ (state_of world.old).calls }
{
    if !is_there(world, model) {
        // No event comes to a model that is not there.
        return Err(EventFault::Memory);
    }
    world.work.same_form();
    let done = world.work.rebuild(model);
    world.work.same_form();
    as_event(done)
}

/// Settles the texts of a model.
pub(crate) fn recalculate(world: &mut FormWorld, model: u32) -> Result<(), EventFault>
    ensures done { Runs means (state_of world.new) result (behave.recalculate profile model (state_of world.old)) }
    ensures kept { kept_of world.new ≡ kept_of world.old }
    ensures form { (state_of world.new).form ≡ (state_of world.old).form }
    ensures calls { (state_of world.new).calls ≡ (state_of world.old).calls }
{
    if !is_there(world, model) {
        // No event comes to a model that is not there.
        return Err(EventFault::Memory);
    }
    world.work.same_form();
    let done = world.work.recalculate(model);
    world.work.same_form();
    as_event(done)
}

/// Finds the nodes of a model that are not valid.
pub(crate) fn revalidate(world: &mut FormWorld, model: u32) -> Result<(), EventFault>
    ensures done { Runs means (state_of world.new) result (Ok (behave.revalidate profile model (state_of world.old))) }
    ensures kept { kept_of world.new ≡ kept_of world.old }
    ensures form { (state_of world.new).form ≡ (state_of world.old).form }
    ensures calls { (state_of world.new).calls ≡ (state_of world.old).calls }
{
    if !is_there(world, model) {
        // No event comes to a model that is not there.
        return Err(EventFault::Memory);
    }
    world.work.same_form();
    let done = world.work.revalidate(model);
    world.work.same_form();
    as_event(done)
}

/// Brings the indexes up to date, makes the controls afresh, and gives what is told of the differences.
pub(crate) fn refresh(world: &mut FormWorld, model: Option<u32>) -> Result<FiredList, EventFault>
    ensures done { Makes means (map fired_of) (state_of world.new) result (refreshed profile (cleared_by model) (state_of world.old)) }
    ensures kept { kept_of world.new ≡ kept_of world.old }
    ensures form { (state_of world.new).form ≡ (state_of world.old).form }
    ensures calls { (state_of world.new).calls ≡ (state_of world.old).calls }
{
    world.work.same_form();
    let told = told_of(world, model);
    world.work.same_form();
    match told {
        Ok(all) => match events_of(world.alloc, &all) {
            Ok(events) => Ok(events),
            Err(_) => Err(EventFault::Memory),
        },
        Err(fault) => Err(event_fault(fault)),
    }
}

/// The refresh of one model, or of all.
fn told_of(world: &mut FormWorld, model: Option<u32>) -> Result<NotificationList, WorkFault>
    ensures done { Refreshes (cleared_by model) result world.old.work.now world.new.work.now }
    ensures kept { world.new.work.kept ≡ world.old.work.kept }
    ensures notes { world.new.notes ≡ world.old.notes }
    ensures calls { world.new.calls ≡ world.old.calls }
{
    match model {
        Some(model) => world.work.refresh_model(model),
        None => world.work.refresh(),
    }
}

/// The events of notifications.
fn events_of(alloc: Global, all: &NotificationList) -> Result<FiredList, AllocError>
    ensures { IfOk result (λ events. map fired_of events ≡ map told_by (map seen_notification all.now)) }
{
    let mut events = FiredList::new(alloc);
    for one in all.as_slice() {
        events.push(told_by(alloc, one)?)?;
    }
    Ok(events)
}

/// The event of a notification.
fn told_by(alloc: Global, one: &Notification) -> Result<Fired, AllocError>
    ensures { IfOk result (λ e. fired_of e ≡ told_by (seen_notification one.now)) }
{
    event(alloc, one.name, true, true, one.target, &one.rows)
}

/// Whether a node is readonly.
pub(crate) fn is_readonly(world: &FormWorld, node: NodeId) -> bool
    ensures { result ≡ readonly_in (state_of world.now) node.number }
{
    world.work.is_readonly(node)
}

/// Refuses where the node has element children.
pub(crate) fn may_set(world: &FormWorld, node: NodeId) -> Result<(), EventFault>
    ensures { Reads means (λ u. state_of world.now) (state_of world.now) result (settable node.number (state_of world.now)) }
{
    as_event(world.work.may_set(node))
}

/// Sets the text of a node that may be set.
pub(crate) fn set_text(world: &mut FormWorld, node: NodeId, text: &str) -> Result<(), EventFault>
    ensures done { Runs means (state_of world.new) result (text_set profile node.number text.now (state_of world.old)) }
    ensures kept { kept_of world.new ≡ kept_of world.old }
    ensures form { (state_of world.new).form ≡ (state_of world.old).form }
    ensures calls { (state_of world.new).calls ≡ (state_of world.old).calls }
{
    world.work.same_form();
    let done = world.work.set_text(node, text);
    world.work.same_form();
    as_event(done)
}

/// The refresh of a model is due.
pub(crate) fn flag_refresh(world: &mut FormWorld, model: u32)
    ensures done { state_of world.new ≡ in_model refresh_due model (state_of world.old) }
    ensures kept { kept_of world.new ≡ kept_of world.old }
{
    world.work.flag_refresh(model);
}
