//! What an event leaves of the form machine.
ghost use Rattle.xf_law_machine.specs.Rest.Rests.{StepRests};

/// What is so of a state in which nothing is due after each accepted event. This tells contracts so, and does nothing.
pub fn steps_end_at_rest()
    ensures { StepRests }
{}
