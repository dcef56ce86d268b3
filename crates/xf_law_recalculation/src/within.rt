//! What an expression gives and asks within a part of the data that is made of whole trees. The function does nothing: its contract is a law.
ghost use Rattle.xf_law_recalculation.specs.Within.Within.{AskedWithin, GivenWithin};

/// From a node of whole trees an expression gives over these what it gives over all data, and it reads and looks at the same.
pub fn within_trees()
    ensures given { GivenWithin }
    ensures asked { AskedWithin }
{}
