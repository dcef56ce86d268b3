//! Laws of sessions to come: states with the same data go alike but for the numbers of nodes, what a form shows asks its instances alone, and an
//! adoption leaves what a run would.
#![tactic(auto)]

pub mod adoption;
pub mod alike;
pub mod control;
pub mod entered;
pub mod kept;
pub mod outcome;
pub mod path;
pub mod room;
pub mod same;
pub mod shown;
pub mod standing;
pub mod step;
