//! What is shown of a form is what would be shown now, unless a refresh is due: what changes leave of this. Each function does nothing: its contract is
//! a law.
ghost use Rattle.xf_law_sessions.specs.Control.Holding.{InstancesHold};
ghost use Rattle.xf_law_sessions.specs.Control.Leaves.{DataLeave, LeavesFurther, LeavesShown, RefreshDueLeaves, RefreshShows};
ghost use Rattle.xf_law_sessions.specs.Control.Models.{ScopeLaws};

/// A change of the data leaves what is shown, or a refresh is due after it; so do changes one after the other.
pub fn changes_leave_shown()
    ensures shown { LeavesShown }
    ensures further { LeavesFurther }
    ensures each { DataLeave }
    ensures due { RefreshDueLeaves }
{}

/// After a refresh the form shows what there is.
pub fn refreshes_show()
    ensures { RefreshShows }
{}

/// Each node of an instance is held by a model, where there are no more roots than instances.
pub fn instances_are_held()
    ensures { InstancesHold }
{}

/// The model in scope of an action, and of an element, is one of the form.
pub fn scopes_are_models()
    ensures { ScopeLaws }
{}
