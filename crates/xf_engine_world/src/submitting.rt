//! A submission (XForms 1.1, section 11.2): what is due of its model, what is selected and asked of the store, the call, and what comes of the answer.

ghost use Rattle.std.specs.Prelude.{◌≡◌, [], IfOk, IfSome, None, Ok, Some, option_map, slice_get};
ghost use Rattle.xf_def_syntax.specs.declared.form.Submission.{Submission};
ghost use Rattle.xf_store.specs.Called.{Called};
ghost use Rattle.xf_def_machine.specs.State.{State};
ghost use Rattle.xf_def_machine.specs.Update.{due_revalidation};
ghost use Rattle.xf_actions.specs.Defaulted.{submitted, told_by_end, with_end};
ghost use Rattle.xf_actions.specs.Performs.{LeavesOver, Reads, Runs, RunsOver};
ghost use Rattle.xf_actions.specs.Seen.{concluded_of, end_of, ending_of, fired_of};
ghost use Rattle.xf_actions.specs.Sent as machine;
ghost use Rattle.xf_def_form.specs.Formed.{profile};
ghost use Rattle.xf_submit.specs.Errors.{type_text};
ghost use Rattle.xf_submit.specs.Requesting.{seen_request};
ghost use Rattle.xf_submit.specs.Responding.{responded_by, seen_outcome};
ghost use Rattle.xf_submit.specs.Steps.{called_in, last_answer, request_in};
ghost use Rattle.xf_actions.specs.Fault.{means};
ghost use Rattle.xf_engine_world.specs.State.{kept_of, state_of};
ghost use Rattle.xf_engine_world.specs.Submitting.{HasPlantable, sent_of};

use crate::due::revalidate_due;
use crate::elements::submission_element;
use crate::form_world::FormWorld;
use crate::replacing::respond;
use crate::sending::{outcome, request, submission_at, submission_in};
use crate::telling::told_at;
use std::alloc::AllocError;
use xf_actions::{Concluded, Ending, EventFault, Fired, FiredList};
use xf_def_forest::NodeId;
use xf_def_machine::Refusal;
use xf_def_syntax::Submission;
use xf_name::Word;
use xf_store::{Asked, Store};
use xf_submit::{CallFault, ErrorType, Outcome, Request, end_properties};

/// How a submission ended, and the events that are told before that.
#[derive(Drop)]
pub(crate) struct Sent {
    pub(crate) events: FiredList,
    pub(crate) failure: Option<ErrorType>,
}

/// It is done, and these events are told.
pub(crate) fn done(events: FiredList) -> Sent
    ensures events { result.events ≡ events }
    ensures failure { result.failure ≡ None }
{
    Sent {
        events,
        failure: None,
    }
}

/// It fails, and nothing else is told.
pub(crate) fn failed(world: &FormWorld, error: ErrorType) -> Sent
    ensures events { result.events ≡ [] }
    ensures failure { result.failure ≡ Some error }
{
    Sent {
        events: FiredList::new(world.alloc),
        failure: Some(error),
    }
}

// ---- the whole

/// A submission: nothing where there is none of this number.
pub(crate) fn submit<S: Store>(
    world: &mut FormWorld,
    submission: u32,
    store: &mut S,
) -> Result<Concluded, EventFault>
    ensures done { LeavesOver means (concluded_of (state_of world.old).form (state_of world.new)) (state_of world.new) result (λ answers. submitted profile answers submission (slice_get (state_of world.old).form.submissions submission) (state_of world.old)) }
    ensures store { Called (S.calls store.old, S.to_come store.old) (S.calls store.new, S.to_come store.new) (state_of world.old).calls (state_of world.new).calls }
    ensures kept { kept_of world.new ≡ kept_of world.old }
    ensures form { (state_of world.new).form ≡ (state_of world.old).form }
{
    if submission_at(world, submission).is_none() {
        return Ok(nothing(world));
    }
    let sent = send(world, submission, store)?;
    match concluded(world, submission, sent) {
        Ok(concluded) => Ok(concluded),
        Err(_) => Err(EventFault::Memory),
    }
}

fn nothing(world: &FormWorld) -> Concluded
    ensures events { result.events ≡ [] }
    ensures ending { result.ending ≡ None }
{
    Concluded {
        events: FiredList::new(world.alloc),
        ending: None,
    }
}

/// What is told of how the submission of this number ended.
fn concluded(world: &FormWorld, submission: u32, sent: Sent) -> Result<Concluded, AllocError>
    ensures { (s : State) (sub : Submission) → slice_get (state_of world.now).form.submissions submission ≡ Some sub → IfOk result (λ c. with_end submission (Some sub) (Ok (sent_of s sent)) ≡ Ok (concluded_of (state_of world.now).form s c)) }
{
    let failure = error_text(world, sent.failure)?;
    Ok(Concluded {
        events: sent.events,
        ending: Some(Ending {
            submission,
            failure,
        }),
    })
}

fn error_text(world: &FormWorld, failure: Option<ErrorType>) -> Result<Option<Word>, AllocError>
    ensures { IfOk result (λ text. text ≡ option_map type_text failure) }
{
    match failure {
        Some(error) => Ok(Some(Word::from_str(world.alloc, error.text())?)),
        None => Ok(None),
    }
}

/// First what is due of its model is done (step 1).
fn send<S: Store>(world: &mut FormWorld, submission: u32, store: &mut S) -> Result<Sent, EventFault>
    ensures done { IfSome (slice_get (state_of world.old).form.submissions submission) (λ sub. LeavesOver means (sent_of (state_of world.new)) (state_of world.new) result (λ answers. machine.sent profile answers sub (state_of world.old))) }
    ensures store { Called (S.calls store.old, S.to_come store.old) (S.calls store.new, S.to_come store.new) (state_of world.old).calls (state_of world.new).calls }
    ensures kept { kept_of world.new ≡ kept_of world.old }
    ensures form { (state_of world.new).form ≡ (state_of world.old).form }
{
    prepare(world, submission)?;
    attempt(world, submission, store)
}

fn prepare(world: &mut FormWorld, submission: u32) -> Result<(), EventFault>
    ensures done { IfSome (slice_get (state_of world.old).form.submissions submission) (λ sub. Runs means (state_of world.new) result (due_revalidation profile sub.model (state_of world.old))) }
    ensures kept { kept_of world.new ≡ kept_of world.old }
    ensures form { (state_of world.new).form ≡ (state_of world.old).form }
    ensures calls { (state_of world.new).calls ≡ (state_of world.old).calls }
{
    let Some(found) = submission_at(world, submission) else {
        // The submission was found before.
        return Err(EventFault::Memory);
    };
    let model = found.model;
    revalidate_due(world, model)
}

/// What is selected, and what is asked of the store for it (steps 2 to 4).
fn attempt<S: Store>(
    world: &mut FormWorld,
    submission: u32,
    store: &mut S,
) -> Result<Sent, EventFault>
    ensures done { IfSome (slice_get (state_of world.old).form.submissions submission) (λ sub. LeavesOver means (sent_of (state_of world.new)) (state_of world.new) result (λ answers. machine.attempted profile answers sub (state_of world.old))) }
    ensures store { Called (S.calls store.old, S.to_come store.old) (S.calls store.new, S.to_come store.new) (state_of world.old).calls (state_of world.new).calls }
    ensures kept { kept_of world.new ≡ kept_of world.old }
    ensures form { (state_of world.new).form ≡ (state_of world.old).form }
{
    match request_at(world, submission)? {
        Request::Fails(error) => Ok(failed(world, error)),
        Request::Asks(node, asked) => exchange(world, submission, node, asked, store),
    }
}

fn request_at(world: &FormWorld, submission: u32) -> Result<Request, EventFault>
    ensures { IfSome (slice_get (state_of world.now).form.submissions submission) (λ sub. Reads means seen_request (state_of world.now) result (request_in profile sub (state_of world.now))) }
{
    let Some(found) = submission_at(world, submission) else {
        // The submission was found before.
        return Err(EventFault::Memory);
    };
    request(world, found)
}

/// The call, and what its answer makes (steps 5 to 8).
fn exchange<S: Store>(
    world: &mut FormWorld,
    submission: u32,
    node: NodeId,
    asked: Asked,
    store: &mut S,
) -> Result<Sent, EventFault>
    ensures done { IfSome (slice_get (state_of world.old).form.submissions submission) (λ sub. LeavesOver means (sent_of (state_of world.new)) (state_of world.new) result (λ answers. machine.exchanged profile answers sub node.number asked (state_of world.old))) }
    ensures store { Called (S.calls store.old, S.to_come store.old) (S.calls store.new, S.to_come store.new) (state_of world.old).calls (state_of world.new).calls }
    ensures kept { kept_of world.new ≡ kept_of world.old }
    ensures form { (state_of world.new).form ≡ (state_of world.old).form }
{
    call(world, submission, asked, store)?;
    let outcome = outcome_at(world, submission)?;
    respond(world, submission, node, outcome)
}

/// The call of the store. A get that finds no memory for what stands there refuses the event for want of memory.
fn call<S: Store>(
    world: &mut FormWorld,
    submission: u32,
    asked: Asked,
    store: &mut S,
) -> Result<(), EventFault>
    ensures done { IfSome (slice_get (state_of world.old).form.submissions submission) (λ sub. RunsOver means (state_of world.new) result (λ answers. called_in profile answers sub asked (state_of world.old))) }
    ensures store { Called (S.calls store.old, S.to_come store.old) (S.calls store.new, S.to_come store.new) (state_of world.old).calls (state_of world.new).calls }
    ensures kept { kept_of world.new ≡ kept_of world.old }
    ensures form { (state_of world.new).form ≡ (state_of world.old).form }
{
    let Some(found) = submission_in(world.work.form(), submission) else {
        // The submission was found before.
        return Err(EventFault::Memory);
    };
    let resource = found.resource.as_str();
    match world.calls.exchange(world.alloc, resource, asked, store) {
        Ok(()) => Ok(()),
        Err(CallFault::Many) => Err(EventFault::Refused(Refusal::Sends)),
        Err(CallFault::Memory) => Err(EventFault::Memory),
    }
}

fn outcome_at(world: &FormWorld, submission: u32) -> Result<Outcome, EventFault>
    ensures tree { IfOk result (HasPlantable (state_of world.now).form.bindings) }
    ensures value { IfSome (slice_get (state_of world.now).form.submissions submission) (λ sub. Reads means seen_outcome (state_of world.now) result (Ok (responded_by (state_of world.now).form.bindings sub (last_answer (state_of world.now).calls)))) }
{
    let Some(found) = submission_at(world, submission) else {
        // The submission was found before.
        return Err(EventFault::Memory);
    };
    outcome(world, found)
}

// ---- the end

/// The event that tells the end of a submission, where there is one of its number.
pub(crate) fn end_event(world: &FormWorld, ending: &Ending) -> Result<Option<Fired>, EventFault>
    ensures { Reads means (option_map fired_of) (state_of world.now) result (Ok (told_by_end (ending_of (state_of world.now).form ending.now) (state_of world.now))) }
{
    match submission_at(world, ending.submission) {
        Some(found) => match end_of(world, ending, found) {
            Ok(event) => Ok(Some(event)),
            Err(_) => Err(EventFault::Memory),
        },
        None => Ok(None),
    }
}

/// The event that tells the end of this submission.
fn end_of(world: &FormWorld, ending: &Ending, submission: &Submission) -> Result<Fired, AllocError>
    ensures { IfOk result (λ event. fired_of event ≡ machine.end_event ending.now.submission submission.now (end_of ending.now.failure) (state_of world.now)) }
{
    let target = submission_element(world, ending.submission);
    match &ending.failure {
        Some(error) => {
            let told = end_properties(world.alloc, submission, Some(error.as_str()))?;
            told_at(world, "xforms-submit-error", target, told)
        }
        None => {
            let told = end_properties(world.alloc, submission, None)?;
            told_at(world, "xforms-submit-done", target, told)
        }
    }
}
