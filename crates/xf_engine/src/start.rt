//! How a form that is constructed starts (XForms 1.1, section 4.2): its models are told so.

ghost use Rattle.std.specs.Prelude.{◌≡◌, ◌++◌, [], OnOk, string_bytes};
ghost use Rattle.xf_def_machine.specs.Replies.{note_lines};
ghost use Rattle.xf_def_machine.specs.Start.{readied, tell_model as tells_model, tell_models as tells_models};
ghost use Rattle.xf_def_form.specs.Formed.{profile};
ghost use Rattle.xf_store.specs.Called.{Called};
ghost use Rattle.xf_actions.specs.Performs.{RunsOver};
ghost use Rattle.xf_actions.specs.Fault.{means};

use crate::outermost::tell;
use xf_actions::{EventFault, World};
use xf_engine_machine::Machine;
use xf_report::push_notes;
use xf_store::Store;

/// Tells the models that they are constructed and ready: an event of its own, with a whole budget. Appends the lines of its notes.
pub(crate) fn ready<W: Machine, S: Store>(
    world: &mut W,
    store: &mut S,
    text: &mut String,
) -> Result<(), EventFault>
    ensures done { RunsOver means (W.state world.new) result (λ answers. readied profile answers (W.state world.old)) }
    ensures store { Called (S.calls store.old, S.to_come store.old) (S.calls store.new, S.to_come store.new) [] (W.state world.new).calls }
    ensures text { OnOk result (string_bytes text.new ≡ string_bytes text.old ++ note_lines (W.state world.new).notes) }
{
    world.begin_event();
    tell_models(world, "xforms-model-construct", store)?;
    tell_models(world, "xforms-model-construct-done", store)?;
    tell_models(world, "xforms-ready", store)?;
    push_notes(world.alloc(), text, world.notes())?;
    Ok(())
}

/// Tells an event of this name to each model.
fn tell_models<W: Machine, S: Store>(
    world: &mut W,
    name: &str,
    store: &mut S,
) -> Result<(), EventFault>
    ensures done { RunsOver means (W.state world.new) result (λ answers. tells_models profile answers name.now (W.state world.old)) }
    ensures store { Called (S.calls store.old, S.to_come store.old) (S.calls store.new, S.to_come store.new) (W.state world.old).calls (W.state world.new).calls }
{
    let count = world.model_count();
    for model in 0..count {
        tell_model(world, name, model, store)?;
    }
    Ok(())
}

fn tell_model<W: Machine, S: Store>(
    world: &mut W,
    name: &str,
    model: u32,
    store: &mut S,
) -> Result<(), EventFault>
    ensures done { RunsOver means (W.state world.new) result (λ answers. tells_model profile answers name.now model (W.state world.old)) }
    ensures store { Called (S.calls store.old, S.to_come store.old) (S.calls store.new, S.to_come store.new) (W.state world.old).calls (W.state world.new).calls }
{
    let event = world.event_at(name, world.model_element(model))?;
    tell(world, &event, store)
}
