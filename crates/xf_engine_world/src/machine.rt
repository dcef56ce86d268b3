//! The world of a form as who runs a form has it.

ghost use Rattle.std.specs.Prelude.{◌≡◌};
ghost use Rattle.xf_def_form.specs.Formed.{program_in, profile, IsFromBytes};
ghost use Rattle.xf_def_machine.specs.Construct.{construct};
ghost use Rattle.xf_engine_state.specs.Standing as standing;
ghost use Rattle.xf_engine_world.specs.Constructed.{IsConstructed};
ghost use Rattle.xf_engine_world.specs.State.{state_of};

use crate::calls_made::CallsMade;
use crate::construction::constructed;
use crate::fault::event_fault;
use crate::form_world::FormWorld;
use crate::surrounding::over_quiet;
use crate::trying::{copy_named, is_row, takes_text};
use std::alloc::{AllocError, Global};
use xf_actions::{EventFault, Fired, World};
use xf_def_forest::NodeId;
use xf_def_machine::{Note, Refusal};
use xf_engine_machine::Machine;
use xf_engine_state::Work;
use xf_events::NoteList;
use xf_form::Loaded;
use xf_repeat::rows_now;
use xf_store::StoreCall;

impl FormWorld {
    /// Constructs a form (XForms 1.1, section 4.2.1). No event is handled.
    pub fn construct(alloc: Global, loaded: Loaded) -> Result<FormWorld, EventFault>
        requires { IsFromBytes loaded }
        ensures { IsConstructed result (construct profile (program_in loaded)) }
    {
        match constructed(alloc, loaded) {
            Ok(work) => Ok(FormWorld::over_work(alloc, work)),
            Err(fault) => Err(event_fault(fault)),
        }
    }

    /// That of what an engine works on, with no notes and no calls of the store.
    fn over_work(alloc: Global, work: Work) -> FormWorld
        ensures { state_of result ≡ standing.state_of work.now }
    {
        FormWorld {
            alloc,
            work,
            notes: NoteList::new(alloc),
            calls: CallsMade::new(alloc),
        }
    }
}

impl Machine for FormWorld {
    fn begin_event(&mut self) {
        self.work.begin_event();
        self.notes.clear();
        self.calls.clear();
    }

    fn count_event(&mut self) -> Result<(), EventFault> {
        match self.work.count_event() {
            Ok(()) => Ok(()),
            Err(_) => Err(EventFault::Memory),
        }
    }

    fn commit(&mut self) {
        self.work.commit();
        self.notes.clear();
        self.calls.clear();
    }

    fn roll_back(&mut self) {
        self.work.roll_back();
        self.notes.clear();
        self.calls.clear();
    }

    fn notes(&self) -> &[Note] {
        self.notes.as_slice()
    }

    fn store_calls(&self) -> &[StoreCall] {
        self.calls.are_few();
        self.calls.as_slice()
    }

    fn calls_are_covered(&self) {
        self.calls.are_covered();
    }

    fn evaluated(&self) -> u64 {
        self.work.evaluated()
    }

    fn accepted(&self) -> u64 {
        self.work.accepted()
    }

    fn push_text(&self, text: &mut String) -> Result<(), AllocError> {
        self.work.push_text(text)
    }

    fn node_to_set(
        &self,
        element: u32,
        rows: &[u64],
        text: &str,
    ) -> Result<Option<NodeId>, EventFault> {
        let copy = copy_named(self, element, rows)?;
        if !copy.enabled {
            return Err(EventFault::Refused(Refusal::Disabled));
        }
        if !copy.readwrite {
            return Err(EventFault::Refused(Refusal::ReadOnly));
        }
        if !takes_text(self, element, copy, text) {
            return Err(EventFault::Refused(Refusal::NotAnItem));
        }
        Ok(copy.node)
    }

    fn activation(&self, element: u32, rows: &[u64]) -> Result<Fired, EventFault> {
        let copy = copy_named(self, element, rows)?;
        if !copy.enabled {
            return Err(EventFault::Refused(Refusal::Disabled));
        }
        self.event("DOMActivate", true, true, element, &copy.rows)
    }

    fn try_index(&self, repeat: u32, number: u64) -> Result<(), EventFault> {
        let rows = rows_now(&over_quiet(self), self.work.indexes(), repeat)?;
        if !is_row(&rows, number) {
            return Err(EventFault::Refused(Refusal::BadIndex));
        }
        Ok(())
    }

    ghost is_given = { Rattle.std.specs.Prelude.refl };
}
