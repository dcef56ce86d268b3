//! Static expressions are fixed: what they select, read and look at over the shape of a forest is told by it. Each function does nothing: its
//! contract is a law.
ghost use Rattle.xf_law_static.specs.Fixed.Laws.{BindsFixed, ReadFixed, StaticFixed};

/// A static expression that is as the reader makes it is fixed.
pub fn static_fixed()
    ensures { StaticFixed }
{}

/// So a text that is read as a static expression is fixed.
pub fn read_fixed()
    ensures { ReadFixed }
{}

/// So the node sets of binds that were read, and are static, are fixed.
pub fn binds_fixed()
    ensures { BindsFixed }
{}
