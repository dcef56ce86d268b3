//! Laws of binds: one settled state exists, what a change marks is enough, a recalculation evaluates what it must and no more, a model asks its own
//! instances alone.
#![tactic(auto)]

pub mod agree;
pub mod bind;
pub mod change;
pub mod document;
pub mod edit;
pub mod elsewhere;
pub mod held;
pub mod marks;
pub mod part;
pub mod since;
pub mod within;
pub mod written;
