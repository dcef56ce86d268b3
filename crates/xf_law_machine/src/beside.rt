//! Changes of the form machine do not look at the notes of an event and the calls of its store.
ghost use Rattle.xf_law_machine.specs.Beside.Laws.{ChangesGoBeside, LeavesBeside, ReadingsGoBeside};

/// The changes of the data, of models and of controls are the same whatever notes and calls there are. This tells contracts so, and does nothing.
pub fn changes_go_beside()
    ensures { ChangesGoBeside }
{}

/// So is what is read of a state. This tells contracts so, and does nothing.
pub fn readings_go_beside()
    ensures { ReadingsGoBeside }
{}

/// Such a change leaves the notes and the calls as they are. This tells contracts so, and does nothing.
pub fn changes_leave_beside()
    ensures { LeavesBeside }
{}
