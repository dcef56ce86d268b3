//! Laws of the data as construction left them: the bare tree of a document element gives its contents. Each function does nothing: its contract is
//! a law.
ghost use Rattle.xf_law_machine.specs.First.First.{FirstGives};
ghost use Rattle.xf_law_machine.specs.First.Well.{BareGives};

/// The bare tree of a tree of a form's names gives its contents.
pub fn bare_gives()
    ensures { BareGives }
{}

/// So does that of each document element that construction left, where the data have the shape that was planted.
pub fn first_gives()
    ensures { FirstGives }
{}
