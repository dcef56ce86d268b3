//! What an event from outside dispatches and settles, while no other event is handled.

ghost use Rattle.std.specs.Prelude.{◌≡◌};
ghost use Rattle.xf_def_machine.specs.Step.{settle as settles, tell as tells};
ghost use Rattle.xf_def_form.specs.Formed.{profile};
ghost use Rattle.xf_store.specs.Called.{Called};
ghost use Rattle.xf_actions.specs.Performs.{RunsOver};
ghost use Rattle.xf_actions.specs.Seen.{fired_of};
ghost use Rattle.xf_actions.specs.Fault.{means};

use xf_actions::{EventFault, Fired, dispatch, update};
use xf_base::limits::DISPATCH_LIMIT;
use xf_engine_machine::Machine;
use xf_store::Store;

/// Dispatches an event.
pub(crate) fn tell<W: Machine, S: Store>(
    world: &mut W,
    fired: &Fired,
    store: &mut S,
) -> Result<(), EventFault>
    ensures done { RunsOver means (W.state world.new) result (λ answers. tells profile answers (fired_of fired.now) (W.state world.old)) }
    ensures store { Called (S.calls store.old, S.to_come store.old) (S.calls store.new, S.to_come store.new) (W.state world.old).calls (W.state world.new).calls }
    ensures kept { W.kept world.new ≡ W.kept world.old }
{
    dispatch(world, fired, DISPATCH_LIMIT, true, store)
}

/// Does what is due.
pub(crate) fn settle<W: Machine, S: Store>(world: &mut W, store: &mut S) -> Result<(), EventFault>
    ensures done { RunsOver means (W.state world.new) result (λ answers. settles profile answers (W.state world.old)) }
    ensures store { Called (S.calls store.old, S.to_come store.old) (S.calls store.new, S.to_come store.new) (W.state world.old).calls (W.state world.new).calls }
    ensures kept { W.kept world.new ≡ W.kept world.old }
{
    update(world, DISPATCH_LIMIT, store)
}
