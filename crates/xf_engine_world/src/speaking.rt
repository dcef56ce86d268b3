//! The texts that actions tell.

ghost use Rattle.xf_def_machine.specs.Acting.{binding_of};
ghost use Rattle.xf_def_machine.specs.Telling.{loaded_text};
ghost use Rattle.xf_actions.specs.Performs.{Reads};
ghost use Rattle.xf_actions.specs.Seen.{acting_of};
ghost use Rattle.xf_actions.specs.Texts.{message_text};
ghost use Rattle.xf_def_form.specs.Formed.{profile};
ghost use Rattle.xf_actions.specs.Fault.{means};
ghost use Rattle.xf_engine_world.specs.State.{state_of};

use crate::form_world::FormWorld;
use crate::surrounding::{over_event, over_quiet};
use xf_actions::{Acting, EventFault, Fired};
use xf_eval_context::{binding_at, inside_under, text_in, text_or};
use xf_name::Word;

/// The text of a message, in the rows in which its action stands.
pub(crate) fn message(world: &FormWorld, fired: &Fired, acting: &Acting) -> Result<Word, EventFault>
    ensures { Reads means (λ w. w) (state_of world.now) result (message_text profile (acting_of fired.now acting.now) (state_of world.now)) }
{
    let within = inside_under(&over_quiet(world), acting.rows.as_slice(), acting.element)?;
    let text = text_in(&over_event(world, fired), &within, acting.element)?;
    Ok(text)
}

/// The text of what an action binds, else this one.
pub(crate) fn loaded(
    world: &FormWorld,
    fired: &Fired,
    acting: &Acting,
    resource: &str,
) -> Result<Word, EventFault>
    ensures { Reads means (λ w. w) (state_of world.now) result (loaded_text profile (acting_of fired.now acting.now) resource.now (state_of world.now) (binding_of (acting_of fired.now acting.now) (state_of world.now))) }
{
    let over = over_event(world, fired);
    let binding = binding_at(over.form, acting.element);
    let text = text_or(&over, acting.model, binding, &acting.focus, resource)?;
    Ok(text)
}
