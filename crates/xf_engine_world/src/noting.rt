//! A note that an event leaves.

ghost use Rattle.std.specs.Prelude.{◌≡◌};
ghost use Rattle.xf_def_machine.specs.Primitives.{add_note as noted};
ghost use Rattle.xf_actions.specs.Performs.{Runs};
ghost use Rattle.xf_actions.specs.Fault.{means};
ghost use Rattle.xf_def_form.specs.Formed.{profile};
ghost use Rattle.xf_engine_world.specs.State.{kept_of, state_of};

use crate::form_world::FormWorld;
use xf_actions::EventFault;
use xf_def_machine::{LimitWord, Note, Refusal};
use xf_events::NoteFault;

/// Adds a note, unless the lines of all of the event would have too many bytes.
pub(crate) fn add_note(world: &mut FormWorld, note: Note) -> Result<(), EventFault>
    ensures done { Runs means (state_of world.new) result (noted profile note (state_of world.old)) }
    ensures kept { kept_of world.new ≡ kept_of world.old }
    ensures form { (state_of world.new).form ≡ (state_of world.old).form }
    ensures calls { (state_of world.new).calls ≡ (state_of world.old).calls }
{
    let alloc = world.alloc;
    match world.notes.add(alloc, note) {
        Ok(()) => Ok(()),
        Err(NoteFault::Limit) => Err(EventFault::Refused(Refusal::Limit(LimitWord::Notes))),
        Err(NoteFault::Memory) => Err(EventFault::Memory),
    }
}
