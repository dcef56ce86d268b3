//! The laws of what a model keeps from one rebuild to the next: it is what a rebuild would make now, where the model's part of the data stays, and
//! where only texts are set. Each function does nothing: its contract is a law.
ghost use Rattle.xf_law_sessions.specs.Kept.Changes.{EnteredThroughChanges};
ghost use Rattle.xf_law_sessions.specs.Kept.Settled.{RecalculatedElsewhere};
ghost use Rattle.xf_law_sessions.specs.Kept.Valid.{RevalidatedElsewhere};
ghost use Rattle.xf_law_sessions.specs.Kept.Stays.{EnteredElsewhere, EnteredShaped};

/// What the last rebuild of a model gave stays what a rebuild gives where the model's part of the data stays, and where the shape of the data does.
pub fn entered_stays()
    ensures elsewhere { EnteredElsewhere }
    ensures shaped { EnteredShaped }
{}

/// So it stays through each change, unless that makes the rebuild of the model due.
pub fn entered_through_changes()
    ensures { EnteredThroughChanges }
{}

/// What the last recalculation of a model gave stays what a recalculation gives where the model's part of the data stays.
pub fn recalculated_stays()
    ensures { RecalculatedElsewhere }
{}

/// What the last revalidation of a model found stays what a revalidation finds where the model's part of the data stays.
pub fn revalidated_stays()
    ensures { RevalidatedElsewhere }
{}
