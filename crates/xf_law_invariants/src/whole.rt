//! Laws of rest, whole: what is so of a state at rest beside what `xf_law_machine::rest` tells, after each accepted event and each start. Each function does
//! nothing: its contract is a law.
ghost use Rattle.xf_law_invariants.specs.Whole.Cases.{CaseLaws};

/// Each switch has one of its cases after each accepted event and each start.
pub fn switches_keep_cases()
    ensures { CaseLaws }
{}
