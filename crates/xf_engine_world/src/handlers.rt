//! The handlers that an event calls, and what stands in an action.

ghost use Rattle.std.specs.Prelude.{Ok};
ghost use Rattle.xf_def_machine.specs.Surround.{interface};
ghost use Rattle.xf_def_ui.specs.Calls.{calls as called_by};
ghost use Rattle.xf_def_ui.specs.Elements.{actions_in, element_at};
ghost use Rattle.xf_def_ui.specs.Labels.{words_of};
ghost use Rattle.xf_actions.specs.Performs.{Reads};
ghost use Rattle.xf_actions.specs.Seen.{fired_of};
ghost use Rattle.xf_actions.specs.Fault.{means};
ghost use Rattle.xf_engine_world.specs.State.{state_of};

use crate::form_world::FormWorld;
use xf_actions::{EventFault, Fired};
use xf_def_syntax::ElementList;
use xf_def_ui::CallList;
use xf_events::{actions_at, called, words_at};
use xf_name::Word;

/// The handlers that an event calls.
pub(crate) fn calls(world: &FormWorld, fired: &Fired) -> Result<CallList, EventFault>
    ensures { Reads means (λ c. c) (state_of world.now) result (Ok (called_by (interface (state_of world.now)) (fired_of fired.now).event)) }
{
    match called(world.alloc, world.work.form(), fired) {
        Ok(list) => Ok(list),
        Err(_) => Err(EventFault::Memory),
    }
}

/// The actions in an action.
pub(crate) fn actions(world: &FormWorld, element: u32) -> Result<ElementList, EventFault>
    ensures { Reads means (λ c. c) (state_of world.now) result (Ok (actions_in (interface (state_of world.now)) element)) }
{
    match actions_at(world.alloc, world.work.form(), element) {
        Ok(all) => Ok(all),
        Err(_) => Err(EventFault::Memory),
    }
}

/// The text that stands in an element.
pub(crate) fn words(world: &FormWorld, element: u32) -> Result<Word, EventFault>
    ensures { Reads means (λ w. w) (state_of world.now) result (Ok (words_of (interface (state_of world.now)) (element_at (interface (state_of world.now)) element))) }
{
    match words_at(world.alloc, world.work.form(), element) {
        Ok(text) => Ok(text),
        Err(_) => Err(EventFault::Memory),
    }
}
