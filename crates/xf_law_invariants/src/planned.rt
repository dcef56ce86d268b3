//! Laws of planned inserts and deletes (XForms 1.1, sections 10.3 and 10.4): what they do to a forest keeps it one of trees. Each function does
//! nothing: its contract is a law.
ghost use Rattle.xf_law_invariants.specs.Planned.Outside.{OutsideLaws};
ghost use Rattle.xf_law_invariants.specs.Planned.Planned.{PlanLaws};

/// What is outside of a detached tree stays outside.
pub fn outside_stays()
    ensures { OutsideLaws }
{}

/// Where an insert and a delete lead, by the kinds of nodes.
pub fn plans_go()
    ensures { PlanLaws }
{}
