//! What holds of the form machine.
ghost use Rattle.xf_law_machine.specs.Behaviours.Chain.{FlagsStayChained};
ghost use Rattle.xf_law_machine.specs.Behaviours.Failed.{FailedKeeps};
ghost use Rattle.xf_law_machine.specs.Behaviours.Renumbered.{StayTheSame};

/// A behaviour that is due carries those after it, whatever is changed. This tells contracts so, and does nothing.
pub fn flags_stay_chained()
    ensures { FlagsStayChained }
{}

/// A submission that fails keeps the data. This tells contracts so, and does nothing.
pub fn failed_submission_keeps_data()
    ensures { FailedKeeps }
{}

/// States that are the same but for the numbers of nodes stay so, where a change neither evaluates nor touches the forest. This tells contracts
/// so, and does nothing.
pub fn renumbered_states_stay_the_same()
    ensures { StayTheSame }
{}
