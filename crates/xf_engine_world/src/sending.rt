//! What is read for a submission (XForms 1.1, section 11.2): the submission, what it asks the store for, what comes of the answer, and where that
//! comes.

ghost use Rattle.std.specs.Prelude.{◌≡◌, IfOk, Ok, option_map, slice_get};
ghost use Rattle.xf_def_machine.specs.Submit as machine;
ghost use Rattle.xf_def_machine.specs.Surround.{model_holding};
ghost use Rattle.xf_actions.specs.Performs.{Reads};
ghost use Rattle.xf_def_form.specs.Formed.{profile};
ghost use Rattle.xf_submit.specs.Requesting.{seen_request};
ghost use Rattle.xf_submit.specs.Responding.{responded_by, seen_outcome};
ghost use Rattle.xf_submit.specs.Steps.{last_answer, request_in};
ghost use Rattle.xf_actions.specs.Fault.{means};
ghost use Rattle.xf_engine_world.specs.State.{state_of};
ghost use Rattle.xf_engine_world.specs.Submitting.{HasPlantable};

use crate::form_world::FormWorld;
use crate::holding::instance_holding;
use crate::surrounding::over_quiet;
use xf_actions::EventFault;
use xf_def_forest::NodeId;
use xf_def_syntax::{Form, Submission};
use xf_submit::{Outcome, Request, requested, response, takes_text, takes_tree, target};

/// The submission of this number.
pub(crate) fn submission_at(world: &FormWorld, number: u32) -> Option<&Submission>
    ensures { option_map (λ sub. sub.now) result ≡ slice_get (state_of world.now).form.submissions number }
{
    submission_in(world.work.form(), number)
}

/// That of a form.
pub(crate) fn submission_in(form: &Form, number: u32) -> Option<&Submission>
    ensures { option_map (λ sub. sub.now) result ≡ slice_get form.now.tables.submissions number }
{
    form.tables.submissions.get(number as usize)
}

/// What it asks the store for, or why it fails before.
pub(crate) fn request(world: &FormWorld, submission: &Submission) -> Result<Request, EventFault>
    ensures { Reads means seen_request (state_of world.now) result (request_in profile submission.now (state_of world.now)) }
{
    let over = over_quiet(world);
    let asked = requested(&over, &world.work.marks(), submission)?;
    Ok(asked)
}

/// What comes of the answer to the last call.
pub(crate) fn outcome(world: &FormWorld, submission: &Submission) -> Result<Outcome, EventFault>
    ensures value { Reads means seen_outcome (state_of world.now) result (Ok (responded_by (state_of world.now).form.bindings submission.now (last_answer (state_of world.now).calls))) }
    ensures tree { IfOk result (HasPlantable (state_of world.now).form.bindings) }
{
    let Some(call) = world.calls.last() else {
        // The call was made just now.
        return Err(EventFault::Memory);
    };
    let prefixes = &world.work.loaded().prefixes;
    let came = response(world.alloc, prefixes, submission, &call.answer)?;
    Ok(came)
}

/// Where the response comes.
pub(crate) fn target_of(
    world: &FormWorld,
    submission: &Submission,
    selected: NodeId,
) -> Result<Option<NodeId>, EventFault>
    ensures { Reads means (option_map (λ n. n.number)) (state_of world.now) result (machine.target_by profile submission.now selected.number (state_of world.now) submission.now.target submission.now.instance) }
{
    let found = target(&over_quiet(world), submission, selected)?;
    Ok(found)
}

/// Whether a tree may come in the place of a node.
pub(crate) fn may_take_tree(world: &FormWorld, node: NodeId) -> bool
    ensures { result ≡ machine.takes_tree (state_of world.now) node.number }
{
    takes_tree(world.work.forest(), &world.work.marks(), node)
}

/// Whether a text may come in a node.
pub(crate) fn may_take_text(world: &FormWorld, node: NodeId) -> bool
    ensures { result ≡ machine.takes_text (state_of world.now) node.number }
{
    takes_text(world.work.forest(), &world.work.marks(), node)
}

/// The model whose instance holds a node.
pub(crate) fn model_of(world: &FormWorld, node: NodeId) -> Option<u32>
    ensures { result ≡ model_holding (state_of world.now) node.number }
{
    let place = instance_holding(world, node)?;
    let instance = world.work.form().tables.instances.get(place)?;
    Some(instance.model)
}
