//! A form over what an engine works on, with the notes of the event that is handled, and the calls of the store in it.

use crate::calls_made::CallsMade;
use std::alloc::Global;
use xf_engine_state::Work;
use xf_events::NoteList;

/// A form as the form machine, while an event is handled.
pub struct FormWorld {
    pub(crate) alloc: Global,
    pub(crate) work: Work,
    pub(crate) notes: NoteList,
    pub(crate) calls: CallsMade,
}

// Written out: a derived one is proved anew for each type within it, in each crate that gives one up.
impl Drop for FormWorld {
    fn drop(self) {
        let FormWorld {
            alloc: _,
            work,
            notes: _,
            calls: _,
        } = self;
        work.discard();
    }
}
