//! What a form shows is told by its instances, whatever trees are detached, and indexes that are brought up to date are placed. Each function does
//! nothing: its contract is a law.
ghost use Rattle.xf_law_sessions.specs.Shown.Brought.{BroughtArePlaced, IndexLaws, StartedArePlaced};
ghost use Rattle.xf_law_sessions.specs.Shown.Constructed.{ConstructionLaws};
ghost use Rattle.xf_law_sessions.specs.Shown.Shown.{PlacedOfInstances, ShownOfInstances};

/// The list of the controls, and that indexes are placed, ask the instances alone.
pub fn shown_of_instances()
    ensures shown { ShownOfInstances }
    ensures placed { PlacedOfInstances }
{}

/// Indexes that are brought up to date are placed, and so are those that a form starts with; each repeat keeps one.
pub fn indexes_are_placed()
    ensures brought { BroughtArePlaced }
    ensures started { StartedArePlaced }
    ensures laws { IndexLaws }
{}

/// A construction and an adoption leave what is shown of them, and so does the end of an event.
pub fn constructed_is_shown()
    ensures { ConstructionLaws }
{}
