//! A form that is constructed, and not started.

ghost use Rattle.std.specs.Prelude.{◌≡◌};

use crate::running::Running;
use crate::start::ready;
use xf_actions::EventFault;
use xf_engine_machine::Machine;
use xf_session::Starting;
use xf_store::Store;

/// A form that is constructed, and not started: a world in which no event was handled.
#[derive(Drop)]
pub struct Constructed<W: Machine> {
    pub world: W,
}

impl<W: Machine> Constructed<W> {
    /// That of a world in which no event was handled.
    pub fn new(world: W) -> Constructed<W>
        ensures { result.world ≡ world }
    {
        Constructed { world }
    }
}

impl<W: Machine> Starting<Running<W>> for Constructed<W> {
    ghost first = { λ c. W.state c.world };

    fn start<S: Store>(self, store: &mut S, text: &mut String) -> Result<Running<W>, EventFault> {
        let mut world = self.world;
        let ready = ready(&mut world, store, text);
        world.calls_are_covered();
        match ready {
            Ok(()) => Ok(Running::pending(world)),
            Err(fault) => Err(fault),
        }
    }
}
