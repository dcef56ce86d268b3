//! What an event does with other numbers of nodes, and what a state at rest is fixed by.
ghost use Rattle.xf_law_sessions.specs.Step.Fixed.{FixedLaws};
ghost use Rattle.xf_law_sessions.specs.Step.Steps.{StepsGo};

/// An event goes with a renumbering of the nodes of the state. This tells contracts so, and does nothing.
pub fn steps_go_with_renumbering()
    ensures { StepsGo }
{}

/// A state at rest is fixed by its data, but for the numbers of nodes. This tells contracts so, and does nothing.
pub fn states_at_rest_are_fixed()
    ensures { FixedLaws }
{}
