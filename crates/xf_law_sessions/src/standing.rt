//! The laws of what the behaviours of models gave: entries, values and validity are those that the behaviours would give now, unless they are due. Each
//! function does nothing: its contract is a law.
ghost use Rattle.xf_law_sessions.specs.Standing.AtRest.{StandAtRest};
ghost use Rattle.xf_law_sessions.specs.Standing.Standing.{StandingThroughChanges};

/// What the behaviours of each model gave stays what they give through each change of the data, a rebuild and a revalidation, unless they are due.
pub fn models_stand_through_changes()
    ensures { StandingThroughChanges }
{}

/// At the end of an event, where nothing is due and the detached trees are dropped, each model has what its behaviours would give.
pub fn models_stand_at_rest()
    ensures { StandAtRest }
{}
