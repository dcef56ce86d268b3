//! Laws of what is written of data and read again: a printed path names one node of an instance, and a bare tree plants the nodes that it was made
//! of. Each function does nothing: its contract is a law.
ghost use Rattle.xf_law_sessions.specs.Path.Again.{BareAgain};
ghost use Rattle.xf_law_sessions.specs.Path.Paths.{PathNamesOne, NamesFree};

/// The bare tree of a planted element is planted as that element is.
pub fn bare_again()
    ensures { BareAgain }
{}

/// The printed path of a node names one node of an instance; names that consist of parts are as this asks.
pub fn path_names_one()
    ensures one { PathNamesOne }
    ensures names { NamesFree }
{}
