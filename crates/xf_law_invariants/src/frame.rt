//! How a condition is carried through every change of the form machine, where each change is told of its arguments. Each function does nothing: its
//! contract is a law.
ghost use Rattle.xf_law_invariants.specs.Frame.Each.{FrameLaws};
ghost use Rattle.xf_law_invariants.specs.Frame.Moves.{DataLaws, MoveLaws};

/// What each change keeps, an event keeps, and so does a start.
pub fn events_keep()
    ensures { FrameLaws }
{}

/// What the changes of trees keep, an insert, a delete and a replacement keep.
pub fn moves_keep()
    ensures { MoveLaws }
{}

/// Texts that are set or settled leave the data trees.
pub fn texts_keep_data()
    ensures { DataLaws }
{}
