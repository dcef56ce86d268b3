//! The events that come from outside.

ghost use Rattle.std.specs.Prelude.{◌≡◌, option_map};
ghost use Rattle.xf_def_machine.specs.Step.{changed_by, set_bound as bound_set, to_element};
ghost use Rattle.xf_def_machine.specs.SetValue.{set_node as node_set};
ghost use Rattle.xf_line.specs.declared.event.Event.TheVariants.{Set, Activate, Index, Send, Dispatch, Reset};
ghost use Rattle.xf_def_form.specs.Formed.{profile};
ghost use Rattle.xf_store.specs.Called.{Called};
ghost use Rattle.xf_actions.specs.Performs.{Runs, RunsOver};
ghost use Rattle.xf_actions.specs.Fault.{means};

use crate::naming::{Wanted, model, target};
use crate::outermost::{settle, tell};
use crate::rows::{set_index, take_rows};
use xf_actions::{EventFault, Fired, World};
use xf_def_forest::NodeId;
use xf_engine_machine::Machine;
use xf_form_elements::model_at;
use xf_line::Event;
use xf_store::Store;

/// Does what an event asks for.
pub(crate) fn change<W: Machine, S: Store>(
    world: &mut W,
    event: &Event,
    store: &mut S,
) -> Result<(), EventFault>
    ensures done { RunsOver means (W.state world.new) result (λ answers. changed_by profile answers event.now (W.state world.old)) }
    ensures store { Called (S.calls store.old, S.to_come store.old) (S.calls store.new, S.to_come store.new) (W.state world.old).calls (W.state world.new).calls }
    ensures kept { W.kept world.new ≡ W.kept world.old }
{
    match event {
        Event::Set(id, rows, text) => set(
            world,
            id.as_str(),
            rows.as_slice(),
            text.as_str(),
            store,
        ),
        Event::Activate(id, rows) => activate(world, id.as_str(), rows.as_slice(), store),
        Event::Index(id, number) => index(world, id.as_str(), *number, store),
        Event::Dispatch(name, id) => dispatch_to(world, name.as_str(), id.as_str(), store),
        Event::Reset(id) => reset(world, id.as_str(), store),
        Event::Send(id) => send(world, id.as_str(), store),
    }
}

// ---- a text is set

/// Sets the text of the control that has this id, and does what is due.
fn set<W: Machine, S: Store>(
    world: &mut W,
    id: &str,
    rows: &[u64],
    text: &str,
    store: &mut S,
) -> Result<(), EventFault>
    ensures done { RunsOver means (W.state world.new) result (λ answers. changed_by profile answers (Set id.now rows.now text.now) (W.state world.old)) }
    ensures store { Called (S.calls store.old, S.to_come store.old) (S.calls store.new, S.to_come store.new) (W.state world.old).calls (W.state world.new).calls }
    ensures kept { W.kept world.new ≡ W.kept world.old }
{
    let element = target(world, Wanted::Entry, id)?;
    let node = world.node_to_set(element, rows, text)?;
    take_rows(world, element, rows)?;
    set_bound(world, node, text)?;
    settle(world, store)
}

/// Sets the text of the node that a control binds, if it binds one.
fn set_bound<W: Machine>(world: &mut W, node: Option<NodeId>, text: &str) -> Result<(), EventFault>
    ensures done { Runs means (W.state world.new) result (bound_set profile text.now (option_map (λ n. n.number) node) (W.state world.old)) }
    ensures kept { W.kept world.new ≡ W.kept world.old }
    ensures calls { (W.state world.new).calls ≡ (W.state world.old).calls }
{
    match node {
        Some(node) => set_node(world, node, text),
        None => Ok(()),
    }
}

fn set_node<W: Machine>(world: &mut W, node: NodeId, text: &str) -> Result<(), EventFault>
    ensures done { Runs means (W.state world.new) result (node_set profile node.number text.now (W.state world.old)) }
    ensures kept { W.kept world.new ≡ W.kept world.old }
    ensures calls { (W.state world.new).calls ≡ (W.state world.old).calls }
{
    world.may_set(node)?;
    world.set_text(node, text)
}

// ---- a trigger is activated

/// Activates the trigger that has this id: what is due is done, and then it is told.
fn activate<W: Machine, S: Store>(
    world: &mut W,
    id: &str,
    rows: &[u64],
    store: &mut S,
) -> Result<(), EventFault>
    ensures done { RunsOver means (W.state world.new) result (λ answers. changed_by profile answers (Activate id.now rows.now) (W.state world.old)) }
    ensures store { Called (S.calls store.old, S.to_come store.old) (S.calls store.new, S.to_come store.new) (W.state world.old).calls (W.state world.new).calls }
    ensures kept { W.kept world.new ≡ W.kept world.old }
{
    let element = target(world, Wanted::Trigger, id)?;
    let event = world.activation(element, rows)?;
    take_rows(world, element, rows)?;
    settle(world, store)?;
    tell(world, &event, store)
}

// ---- an index is set

/// Sets the index of the repeat that has this id, and does what is due.
fn index<W: Machine, S: Store>(
    world: &mut W,
    id: &str,
    number: u64,
    store: &mut S,
) -> Result<(), EventFault>
    ensures done { RunsOver means (W.state world.new) result (λ answers. changed_by profile answers (Index id.now number) (W.state world.old)) }
    ensures store { Called (S.calls store.old, S.to_come store.old) (S.calls store.new, S.to_come store.new) (W.state world.old).calls (W.state world.new).calls }
    ensures kept { W.kept world.new ≡ W.kept world.old }
{
    let repeat = target(world, Wanted::Repeat, id)?;
    world.try_index(repeat, number)?;
    let model = model_at(world.form(), repeat);
    set_index(world, model, repeat, number)?;
    settle(world, store)
}

// ---- an event is dispatched

/// Dispatches an event of this name to the element that has this id.
fn dispatch_to<W: Machine, S: Store>(
    world: &mut W,
    name: &str,
    id: &str,
    store: &mut S,
) -> Result<(), EventFault>
    ensures done { RunsOver means (W.state world.new) result (λ answers. changed_by profile answers (Dispatch name.now id.now) (W.state world.old)) }
    ensures store { Called (S.calls store.old, S.to_come store.old) (S.calls store.new, S.to_come store.new) (W.state world.old).calls (W.state world.new).calls }
    ensures kept { W.kept world.new ≡ W.kept world.old }
{
    let element = target(world, Wanted::Any, id)?;
    tell_element(world, name, element, store)
}

/// Tells the model that has this id to reset its data: the first model where the id is empty.
fn reset<W: Machine, S: Store>(world: &mut W, id: &str, store: &mut S) -> Result<(), EventFault>
    ensures done { RunsOver means (W.state world.new) result (λ answers. changed_by profile answers (Reset id.now) (W.state world.old)) }
    ensures store { Called (S.calls store.old, S.to_come store.old) (S.calls store.new, S.to_come store.new) (W.state world.old).calls (W.state world.new).calls }
    ensures kept { W.kept world.new ≡ W.kept world.old }
{
    let element = model(world, id)?;
    tell_element(world, "xforms-reset", element, store)
}

/// Tells the submission that has this id to begin.
fn send<W: Machine, S: Store>(world: &mut W, id: &str, store: &mut S) -> Result<(), EventFault>
    ensures done { RunsOver means (W.state world.new) result (λ answers. changed_by profile answers (Send id.now) (W.state world.old)) }
    ensures store { Called (S.calls store.old, S.to_come store.old) (S.calls store.new, S.to_come store.new) (W.state world.old).calls (W.state world.new).calls }
    ensures kept { W.kept world.new ≡ W.kept world.old }
{
    let element = target(world, Wanted::Submission, id)?;
    tell_element(world, "xforms-submit", element, store)
}

/// Dispatches an event without properties to the copy of an element in the indexed rows: to none where an index is 0.
fn tell_element<W: Machine, S: Store>(
    world: &mut W,
    name: &str,
    element: u32,
    store: &mut S,
) -> Result<(), EventFault>
    ensures done { RunsOver means (W.state world.new) result (λ answers. to_element profile answers name.now element (W.state world.old)) }
    ensures store { Called (S.calls store.old, S.to_come store.old) (S.calls store.new, S.to_come store.new) (W.state world.old).calls (W.state world.new).calls }
    ensures kept { W.kept world.new ≡ W.kept world.old }
{
    match world.named_copy(element)? {
        Some(rows) => {
            let event = world.event(name, true, true, element, &rows)?;
            tell(world, &event, store)
        }
        None => Ok(()),
    }
}
