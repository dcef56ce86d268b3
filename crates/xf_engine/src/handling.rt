//! How an event from outside is handled and counted.

ghost use Rattle.std.specs.Prelude.{◌≡◌, string_bytes};
ghost use Rattle.xf_def_machine.specs.Step.{changed_by};
ghost use Rattle.xf_def_form.specs.Formed.{profile};
ghost use Rattle.xf_store.specs.Called.{Called};
ghost use Rattle.xf_engine.specs.Handled.{HandlesOver};

use crate::events::change;
use xf_actions::{EventFault, World};
use xf_engine_machine::Machine;
use xf_line::Event;
use xf_report::push_ok;
use xf_store::Store;

/// Does an event and counts it. What is written for it is made before it is kept: there may be no memory for it afterwards.
pub(crate) fn handle<W: Machine, S: Store>(
    world: &mut W,
    event: &Event,
    store: &mut S,
    text: &mut String,
) -> Result<u64, EventFault>
    ensures done { HandlesOver result (W.state world.new) (string_bytes text.old) (string_bytes text.new) (λ answers. changed_by profile answers event.now (W.state world.old)) }
    ensures store { Called (S.calls store.old, S.to_come store.old) (S.calls store.new, S.to_come store.new) (W.state world.old).calls (W.state world.new).calls }
    ensures kept { W.kept world.new ≡ W.kept world.old }
{
    change(world, event, store)?;
    let count = world.evaluated();
    let Ok(()) = world.count_event() else {
        return Err(EventFault::Memory);
    };
    push_ok(
        world.alloc(),
        text,
        world.notes(),
        world.accepted(),
        Some(count),
    )?;
    Ok(count)
}
