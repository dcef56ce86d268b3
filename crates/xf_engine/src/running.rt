//! A form at work, an event of which may be pending.

ghost use Rattle.std.specs.Prelude.{◌≡◌, false, true};

use crate::answers::answers_to;
use crate::handling::handle;
use std::alloc::AllocError;
use std::marker::Model;
use xf_actions::{EventFault, World};
use xf_engine_machine::Machine;
use xf_line::Event;
use xf_session::Processor;
use xf_store::{Answers, Store};

/// A form at work. An event that it takes is pending until it is kept or taken back.
#[derive(Drop)]
pub struct Running<W: Machine> {
    world: W,
    is_pending: bool,
}

impl<W: Machine> Model for Running<W> {
    ghost use Rattle.xf_engine.specs.Running.{AtWork, at_work_code};

    ghost Value = { AtWork W };

    ghost coded = { at_work_code W.code };

    ghost use Rattle.std.specs.Prelude.{◌≡◌, false};
    ghost use Rattle.xf_engine.specs.Running.{IsAtRest};

    ghost view = { λ r. record { world = r.world; is_pending = r.is_pending } };

    // While no event is pending nothing is left of one, and what stands is kept.
    ghost invariant = { λ r. r.is_pending ≡ false → IsAtRest (W.state r.world) (W.kept r.world) };
}

impl<W: Machine> Running<W> {
    /// That of a world in which an event was handled, which is pending.
    pub(crate) fn pending(world: W) -> Running<W>
        ensures world { result.world ≡ world }
        ensures pending { result.is_pending ≡ true }
    {
        Running {
            world,
            is_pending: true,
        }
    }
}

impl<W: Machine> Processor for Running<W> {
    ghost use Rattle.xf_engine.specs.Running.{calls_in, kept_in, shown_in};

    ghost state = { λ r. shown_in r.is_pending (W.state r.world) };

    ghost kept = { λ r. kept_in r.is_pending (W.kept r.world) };

    ghost calls = { λ r. calls_in r.is_pending (W.state r.world) };

    fn post<S: Store>(
        &mut self,
        event: &Event,
        store: &mut S,
        text: &mut String,
    ) -> Result<(), EventFault> {
        let handled = handle(&mut self.world, event, store, text);
        self.world.calls_are_covered();
        match handled {
            Ok(_) => {
                self.is_pending = true;
                Ok(())
            }
            Err(fault) => {
                self.world.roll_back();
                Err(fault)
            }
        }
    }

    fn push_state(&self, text: &mut String) -> Result<(), AllocError> {
        self.world.push_text(text)
    }

    fn answers(&self) -> Result<Answers, AllocError> {
        answers_to(self.world.alloc(), self.world.store_calls())
    }

    fn commit(&mut self) {
        if self.is_pending {
            self.world.commit();
            self.is_pending = false;
        }
    }

    fn roll_back(&mut self) {
        self.world.roll_back();
        self.world.commit();
        self.is_pending = false;
    }
}
