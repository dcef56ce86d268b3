//! Static expressions are covered by the law of two forests. Each function does nothing: its contract is a law.
ghost use Rattle.xf_law_static.specs.Covered.AsRead.{StaticCovered, ReadAsMade, ReadCovered, FormCovered};

/// A static expression is one of which the law of two forests is proved.
pub fn static_covered()
    ensures { StaticCovered }
{}

/// What is read is as the reader makes it, so that a text that is read as a static expression is covered.
pub fn read_covered()
    ensures made { ReadAsMade }
    ensures covered { ReadCovered }
{}

/// So the calculates of a form that were read, and are static, are covered.
pub fn form_covered()
    ensures { FormCovered }
{}
