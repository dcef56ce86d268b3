//! What comes of the response of a submission (XForms 1.1, section 11.2, steps 6 to 8): a note, or a tree or a text in the place of the target.

ghost use Rattle.std.specs.Prelude.{◌≡◌, IfSome, true, map, option_map, slice_get};
ghost use Rattle.xf_def_machine.specs.declared.note.Note.TheVariants as note;
ghost use Rattle.xf_def_machine.specs.Construct.{replace as replaced};
ghost use Rattle.xf_def_machine.specs.Primitives.{add_note as noted};
ghost use Rattle.xf_def_machine.specs.Submit.{is_element_in, takes_text, takes_tree, target_by};
ghost use Rattle.xf_def_forest.specs.Plant.{contents_of};
ghost use Rattle.xf_actions.specs.Performs.{Leaves, Makes, Reads, Runs};
ghost use Rattle.xf_actions.specs.Seen.{fired_of};
ghost use Rattle.xf_actions.specs.Sent as sent;
ghost use Rattle.xf_actions.specs.Told.{where_told};
ghost use Rattle.xf_def_form.specs.Formed.{profile};
ghost use Rattle.xf_submit.specs.Responding.{seen_outcome};
ghost use Rattle.xf_submit.specs.Steps.{responded};
ghost use Rattle.xf_engine_state.specs.Moving.{IsPlantable};
ghost use Rattle.xf_actions.specs.Fault.{means};
ghost use Rattle.xf_engine_world.specs.State.{kept_of, state_of};
ghost use Rattle.xf_engine_world.specs.Submitting.{HasPlantable, sent_of};

use crate::behaviours::{rebuild, recalculate, refresh, revalidate, set_text};
use crate::choosing::reindex;
use crate::fault::as_event;
use crate::form_world::FormWorld;
use crate::noting::add_note;
use crate::sending::{may_take_text, may_take_tree, model_of, submission_at, target_of};
use crate::submitting::{Sent, done, failed};
use xf_actions::{EventFault, FiredList};
use xf_def_forest::{NodeId, NodeList};
use xf_def_machine::Note;
use xf_name::{Lit, Word};
use xf_submit::{ErrorType, Outcome};

/// What comes of a response is put in its place. Nothing is, where the target is not found or does not take it.
pub(crate) fn respond(
    world: &mut FormWorld,
    submission: u32,
    selected: NodeId,
    outcome: Outcome,
) -> Result<Sent, EventFault>
    requires { HasPlantable (state_of world.old).form.bindings outcome }
    ensures done { IfSome (slice_get (state_of world.old).form.submissions submission) (λ sub. Leaves means (sent_of (state_of world.new)) (state_of world.new) result (responded profile sub selected.number (seen_outcome outcome) (state_of world.old))) }
    ensures kept { kept_of world.new ≡ kept_of world.old }
    ensures form { (state_of world.new).form ≡ (state_of world.old).form }
    ensures calls { (state_of world.new).calls ≡ (state_of world.old).calls }
{
    match outcome {
        Outcome::Fails(error) => Ok(failed(world, error)),
        Outcome::Ends => Ok(done(FiredList::new(world.alloc))),
        Outcome::Notes(size) => {
            note_all(world, submission, size)?;
            Ok(done(FiredList::new(world.alloc)))
        }
        Outcome::Tree(lit) => {
            let target = target_at(world, submission, selected)?;
            tree_on(world, target, &lit)
        }
        Outcome::Text(text) => {
            let target = target_at(world, submission, selected)?;
            text_on(world, target, &text)
        }
    }
}

/// A note tells the name in the store, and how many bytes came.
fn note_all(world: &mut FormWorld, submission: u32, size: u32) -> Result<(), EventFault>
    ensures done { IfSome (slice_get (state_of world.old).form.submissions submission) (λ sub. Runs means (state_of world.new) result (noted profile (note.All sub.resource size) (state_of world.old))) }
    ensures kept { kept_of world.new ≡ kept_of world.old }
    ensures form { (state_of world.new).form ≡ (state_of world.old).form }
    ensures calls { (state_of world.new).calls ≡ (state_of world.old).calls }
{
    let Some(found) = submission_at(world, submission) else {
        // The submission was found before.
        return Err(EventFault::Memory);
    };
    let name = Word::from_str(world.alloc, found.resource.as_str())?;
    add_note(world, Note::All(name, size))
}

/// Where the response comes.
fn target_at(
    world: &FormWorld,
    submission: u32,
    selected: NodeId,
) -> Result<Option<NodeId>, EventFault>
    ensures { IfSome (slice_get (state_of world.now).form.submissions submission) (λ sub. Reads means (option_map (λ n. n.number)) (state_of world.now) result (target_by profile sub selected.number (state_of world.now) sub.target sub.instance)) }
{
    let Some(found) = submission_at(world, submission) else {
        // The submission was found before.
        return Err(EventFault::Memory);
    };
    target_of(world, found, selected)
}

/// The response as a tree in place of the target, where there is one that takes it.
fn tree_on(world: &mut FormWorld, target: Option<NodeId>, lit: &Lit) -> Result<Sent, EventFault>
    requires { IsPlantable (state_of world.old).form.bindings lit.now }
    ensures done { Leaves means (sent_of (state_of world.new)) (state_of world.new) result (sent.on_target takes_tree (sent.put_tree profile lit.now) (option_map (λ n. n.number) target) (state_of world.old)) }
    ensures kept { kept_of world.new ≡ kept_of world.old }
    ensures form { (state_of world.new).form ≡ (state_of world.old).form }
    ensures calls { (state_of world.new).calls ≡ (state_of world.old).calls }
{
    let Some(node) = target else {
        return Ok(failed(world, ErrorType::Target));
    };
    if !may_take_tree(world, node) {
        return Ok(failed(world, ErrorType::Target));
    }
    let events = put_tree(world, node, lit)?;
    Ok(done(events))
}

/// The response as the target's text, where there is one that takes it.
fn text_on(world: &mut FormWorld, target: Option<NodeId>, text: &Word) -> Result<Sent, EventFault>
    ensures done { Leaves means (sent_of (state_of world.new)) (state_of world.new) result (sent.on_target takes_text (sent.put_text profile text.now) (option_map (λ n. n.number) target) (state_of world.old)) }
    ensures kept { kept_of world.new ≡ kept_of world.old }
    ensures form { (state_of world.new).form ≡ (state_of world.old).form }
    ensures calls { (state_of world.new).calls ≡ (state_of world.old).calls }
{
    let Some(node) = target else {
        return Ok(failed(world, ErrorType::Target));
    };
    if !may_take_text(world, node) {
        return Ok(failed(world, ErrorType::Target));
    }
    let events = put_text(world, node, text)?;
    Ok(done(events))
}

/// A tree comes in place of a node. The events are told after it.
fn put_tree(world: &mut FormWorld, node: NodeId, lit: &Lit) -> Result<FiredList, EventFault>
    requires element { is_element_in (state_of world.old) node.number ≡ true }
    requires tree { IsPlantable (state_of world.old).form.bindings lit.now }
    ensures done { Makes means (map fired_of) (state_of world.new) result (sent.put_tree profile lit.now node.number (state_of world.old)) }
    ensures kept { kept_of world.new ≡ kept_of world.old }
    ensures form { (state_of world.new).form ≡ (state_of world.old).form }
    ensures calls { (state_of world.new).calls ≡ (state_of world.old).calls }
{
    let model = model_of(world, node);
    replace(world, node, lit)?;
    let none = NodeList::new(world.alloc);
    reindex(world, &none)?;
    behave_in(world, model)
}

/// A text comes in a node. The events are told after it.
fn put_text(world: &mut FormWorld, node: NodeId, text: &Word) -> Result<FiredList, EventFault>
    ensures done { Makes means (map fired_of) (state_of world.new) result (sent.put_text profile text.now node.number (state_of world.old)) }
    ensures kept { kept_of world.new ≡ kept_of world.old }
    ensures form { (state_of world.new).form ≡ (state_of world.old).form }
    ensures calls { (state_of world.new).calls ≡ (state_of world.old).calls }
{
    let model = model_of(world, node);
    set_text(world, node, text.as_str())?;
    behave_in(world, model)
}

fn replace(world: &mut FormWorld, node: NodeId, lit: &Lit) -> Result<(), EventFault>
    requires element { is_element_in (state_of world.old) node.number ≡ true }
    requires tree { IsPlantable (state_of world.old).form.bindings lit.now }
    ensures done { Runs means (state_of world.new) result (replaced profile node.number (contents_of (state_of world.old).form.bindings lit.now 0 0) (state_of world.old)) }
    ensures kept { kept_of world.new ≡ kept_of world.old }
    ensures form { (state_of world.new).form ≡ (state_of world.old).form }
    ensures calls { (state_of world.new).calls ≡ (state_of world.old).calls }
{
    world.work.same_form();
    let done = world.work.replace(node, lit);
    world.work.same_form();
    as_event(done)
}

/// The four behaviours of a model, due or not, where there is one.
fn behave_in(world: &mut FormWorld, model: Option<u32>) -> Result<FiredList, EventFault>
    ensures done { Makes means (map fired_of) (state_of world.new) result (where_told model (sent.behaved profile) (state_of world.old)) }
    ensures kept { kept_of world.new ≡ kept_of world.old }
    ensures form { (state_of world.new).form ≡ (state_of world.old).form }
    ensures calls { (state_of world.new).calls ≡ (state_of world.old).calls }
{
    match model {
        Some(model) => behave(world, model),
        None => Ok(FiredList::new(world.alloc)),
    }
}

fn behave(world: &mut FormWorld, model: u32) -> Result<FiredList, EventFault>
    ensures done { Makes means (map fired_of) (state_of world.new) result (sent.behaved profile model (state_of world.old)) }
    ensures kept { kept_of world.new ≡ kept_of world.old }
    ensures form { (state_of world.new).form ≡ (state_of world.old).form }
    ensures calls { (state_of world.new).calls ≡ (state_of world.old).calls }
{
    rebuild(world, model)?;
    recalculate(world, model)?;
    revalidate(world, model)?;
    refresh(world, Some(model))
}
