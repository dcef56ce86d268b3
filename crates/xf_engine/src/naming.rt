//! The elements that events from outside name.

ghost use Rattle.std.specs.Prelude.{◌≡◌, IfOk};
ghost use Rattle.xf_def_machine.specs.Step.{model_named};
ghost use Rattle.xf_def_machine.specs.Targets.{element_named, or_no_target};
ghost use Rattle.xf_actions.specs.Performs.{Reads};
ghost use Rattle.xf_actions.specs.Fault.{means};
ghost use Rattle.xf_engine.specs.Naming.{is_named, is_wanted, named_from, wanted_in};

use std::alloc::AllocError;
use xf_actions::{EventFault, World};
use xf_def_machine::Refusal;
use xf_def_syntax::{Control, Element, Kind};
use xf_engine_machine::Machine;

/// What an event asks of the element that it names.
#[derive(Clone, Copy, Debug, PartialEq, Eq)]
pub enum Wanted {
    /// Its text is set.
    Entry,
    /// It is activated.
    Trigger,
    /// Its index is set.
    Repeat,
    Model,
    /// It begins.
    Submission,
    Any,
}

/// The first element with this id that is wanted.
pub(crate) fn target<W: Machine>(world: &W, wanted: Wanted, id: &str) -> Result<u32, EventFault>
    ensures { Reads means (λ n. n) (W.state world.now) result (or_no_target (W.state world.now) (element_named (W.state world.now) (wanted_in wanted (W.state world.now)) id.now)) }
{
    match first_named(world.form().elements.as_slice(), wanted, id)? {
        Some(element) => Ok(element),
        None => Err(EventFault::Refused(Refusal::NoSuchTarget)),
    }
}

/// The model that has this id: the first model where the id is empty.
pub(crate) fn model<W: Machine>(world: &W, id: &str) -> Result<u32, EventFault>
    ensures { Reads means (λ n. n) (W.state world.now) result (or_no_target (W.state world.now) (model_named (W.state world.now) id.now)) }
{
    if id.is_empty() {
        return Ok(world.model_element(0));
    }
    target(world, Wanted::Model, id)
}

fn first_named(elements: &[Element], wanted: Wanted, id: &str) -> Result<Option<u32>, AllocError>
    ensures { IfOk result (λ found. found ≡ named_from wanted id.now 0 elements.now) }
{
    let mut number: u32 = 0;
    for element in elements {
        if is_named(element, wanted, id) {
            return Ok(Some(number));
        }
        if number == u32::MAX {
            return Err(AllocError);
        }
        number += 1;
    }
    Ok(None)
}

fn is_named(element: &Element, wanted: Wanted, id: &str) -> bool
    ensures { result ≡ is_named wanted id.now element.now }
{
    if id.is_empty() {
        return false;
    }
    element.id.is(id) && is_wanted(&element.kind, wanted)
}

fn is_wanted(kind: &Kind, wanted: Wanted) -> bool
    ensures { result ≡ is_wanted wanted kind.now }
{
    match wanted {
        Wanted::Entry => takes_text(kind),
        Wanted::Trigger => is_activated(kind),
        Wanted::Repeat => is_repeat(kind),
        Wanted::Model => is_model(kind),
        Wanted::Submission => is_submission(kind),
        Wanted::Any => true,
    }
}

/// Whether an element of this kind takes a text from outside.
fn takes_text(kind: &Kind) -> bool
    ensures { result ≡ is_wanted Wanted.Entry kind.now }
{
    match kind {
        Kind::Control(_, Control::Input) => true,
        Kind::Control(_, Control::Secret) => true,
        Kind::Control(_, Control::Textarea) => true,
        Kind::Control(_, Control::Select(_)) => true,
        Kind::Control(_, Control::SelectOne(_)) => true,
        _ => false,
    }
}

fn is_activated(kind: &Kind) -> bool
    ensures { result ≡ is_wanted Wanted.Trigger kind.now }
{
    match kind {
        Kind::Control(_, Control::Trigger) => true,
        Kind::Control(_, Control::Submit(_)) => true,
        _ => false,
    }
}

fn is_repeat(kind: &Kind) -> bool
    ensures { result ≡ is_wanted Wanted.Repeat kind.now }
{
    match kind {
        Kind::Control(_, Control::Repeat(_, _)) => true,
        _ => false,
    }
}

fn is_model(kind: &Kind) -> bool
    ensures { result ≡ is_wanted Wanted.Model kind.now }
{
    match kind {
        Kind::Model(_) => true,
        _ => false,
    }
}

fn is_submission(kind: &Kind) -> bool
    ensures { result ≡ is_wanted Wanted.Submission kind.now }
{
    match kind {
        Kind::Submission(_) => true,
        _ => false,
    }
}
