//! What the form machine does with other numbers of nodes.
ghost use Rattle.xf_law_sessions.specs.Same.Behaving.{BehavioursGo};
ghost use Rattle.xf_law_sessions.specs.Same.Controls.{ControlsGo};
ghost use Rattle.xf_law_sessions.specs.Same.Going.{ChangesGo};
ghost use Rattle.xf_law_sessions.specs.Same.Texts.{TextLaws};

/// The changes of a state go with a renumbering of its nodes. This tells contracts so, and does nothing.
pub fn changes_go_with_renumbering()
    ensures { ChangesGo }
{}

/// The behaviours of a model go with a renumbering of the nodes of the state. This tells contracts so, and does nothing.
pub fn behaviours_go_with_renumbering()
    ensures { BehavioursGo }
{}

/// The indexes of repeats and the list of the controls go with a renumbering of the nodes of the state. This tells contracts so, and does
/// nothing.
pub fn controls_go_with_renumbering()
    ensures { ControlsGo }
{}

/// The text of a state and the data that are kept of it tell no numbers of nodes. This tells contracts so, and does nothing.
pub fn texts_tell_no_numbers()
    ensures { TextLaws }
{}
